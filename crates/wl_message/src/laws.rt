//! Laws of streams and queues. These functions do nothing; each is called for what it ensures.
ghost use Rattle.std.specs.Prelude.{◌≡◌, ◌≢◌, ◌<◌, ◌≤◌, ◌⊎◌, ◌^◌, ℕ, List, [], ◌∷◌, ◌++◌, length};
ghost use Rattle.std.specs.Prelude.{map, take, drop};
ghost use Rattle.std.specs.List.{concat, AllByRecursion};
ghost use Rattle.wl_wire.specs.declared.header.Header.{Header};
ghost use Rattle.wl_wire.specs.Word.{header_bytes};
ghost use Rattle.wl_message.specs.declared.amounts.Amounts.{Amounts};
ghost use Rattle.wl_message.specs.Cut.{front, Bad, Whole, IsSize, IsMessage, IsCut};
ghost use Rattle.wl_message.specs.Cut.{messages_in_stream, rest_of};
ghost use Rattle.wl_message.specs.Arrived.{Arrived, Gives};
ghost use Rattle.wl_message.specs.Outgoing.{QueuedMessage, Outgoing, Goes, goes, newly_begun};
ghost use Rattle.wl_message.specs.Outgoing.{after_taking};
ghost use Rattle.wl_message.specs.InStep.{Part, Need, need, part_tokens, InStep, TakesFromFront};
ghost use Rattle.wl_message.specs.InStep.{HaveCarried, part_taken, Gave};

/// If a header's size is the number of bytes, the bytes are a whole message, provided that a
/// message may have that size.
pub fn headed_message()
    ensures { (limit : ℕ) (header : Header) (arguments : List ℕ)
        → header.size ≡ length (header_bytes header ++ arguments) → header.size < 2 ^ 16
        → header.opcode < 2 ^ 16
        → IsSize limit header.size → IsMessage limit (header_bytes header ++ arguments) }
{}

/// What is at the front of bytes stays there when more bytes come, and a whole message is found at
/// the front whatever follows it.
pub fn front_stays()
    ensures whole { (limit : ℕ) (bytes more : List ℕ) (n : ℕ) → front limit bytes ≡ Whole n
        → front limit (bytes ++ more) ≡ Whole n }
    ensures bad { (limit : ℕ) (bytes more : List ℕ) (n : ℕ) → front limit bytes ≡ Bad n
        → front limit (bytes ++ more) ≡ Bad n }
    ensures found { (limit : ℕ) (message more : List ℕ) → IsMessage limit message
        → front limit (message ++ more) ≡ Whole (length message) }
    ensures is_message { (limit : ℕ) (bytes : List ℕ) (n : ℕ) → front limit bytes ≡ Whole n
        → IsMessage limit (take n bytes) }
{}

/// Each stream has one cut into messages and a rest.
pub fn one_cut()
    ensures exists { (limit : ℕ) (stream : List ℕ)
        → IsCut limit stream (messages_in_stream limit stream) (rest_of limit stream) }
    ensures unique { (limit : ℕ) (stream : List ℕ) (messages : List (List ℕ)) (rest : List ℕ)
        → IsCut limit stream messages rest
        → (messages_in_stream limit stream ≡ messages) × (rest_of limit stream ≡ rest) }
{}

/// The messages of a stream in two parts are those of the first part, then those of its rest joined
/// with the second part. So it does not matter where a stream is split.
pub fn any_cut()
    ensures messages { (limit : ℕ) (first second : List ℕ)
        → messages_in_stream limit (first ++ second) ≡ messages_in_stream limit first
        ++ messages_in_stream limit (rest_of limit first ++ second) }
    ensures rest { (limit : ℕ) (first second : List ℕ)
        → rest_of limit (first ++ second) ≡ rest_of limit (rest_of limit first ++ second) }
{}

/// Whole messages joined together are cut into these messages, and nothing is left.
pub fn joined_messages()
    ensures messages { (limit : ℕ) (messages : List (List ℕ))
        → AllByRecursion (IsMessage limit) messages
        → messages_in_stream limit (concat messages) ≡ messages }
    ensures rest { (limit : ℕ) (messages : List (List ℕ))
        → AllByRecursion (IsMessage limit) messages → rest_of limit (concat messages) ≡ [] }
{}

/// The messages of a stream, one after another.
pub fn next_message()
    ensures whole { (limit : ℕ) (bytes : List ℕ) (n : ℕ) → front limit bytes ≡ Whole n
        → (messages_in_stream limit bytes ≡ take n bytes ∷ messages_in_stream limit (drop n bytes))
        × (rest_of limit bytes ≡ rest_of limit (drop n bytes)) }
    ensures none { (limit : ℕ) (bytes : List ℕ) → ((n : ℕ) → front limit bytes ≢ Whole n)
        → (messages_in_stream limit bytes ≡ []) × (rest_of limit bytes ≡ bytes) }
{}

/// Exactly one amount goes out of an outbox into a room, and it takes whole messages out of those
/// not begun, with all of their tokens.
pub fn one_amount()
    ensures exists { (o : Outgoing) (b t : ℕ) → Goes o b t (goes o b t) }
    ensures unique { (o : Outgoing) (b t : ℕ) (taken : Amounts) → Goes o b t taken
        → taken ≡ goes o b t }
    ensures passes { (o : Outgoing) (b t : ℕ) (taken : Amounts) → Goes o b t taken
        → TakesFromFront o taken }
{}

/// If pieces bring messages in step, they still do with the next piece taken.
pub fn take_keeps_step()
    ensures step { (sent : List QueuedMessage) (o : Outgoing) (parts : List Part) (b t : ℕ)
        (taken : Amounts) → Goes o b t taken → HaveCarried sent o.left parts
        → InStep (map need (sent ++ o.messages)) parts
        → InStep (map need (sent ++ o.messages)) (parts ++ part_taken o taken ∷ []) }
    ensures carried { (sent : List QueuedMessage) (o : Outgoing) (parts : List Part) (b t : ℕ)
        (taken : Amounts) → Goes o b t taken → HaveCarried sent o.left parts
        → HaveCarried (sent ++ newly_begun o taken.bytes) (after_taking o taken.bytes).left
        (parts ++ part_taken o taken ∷ []) }
{}

/// All pieces ever taken out of an outbox bring its messages in step, and no byte or token is lost
/// or changed.
pub fn pieces_in_step()
    ensures step { (sent : List QueuedMessage) (parts : List Part) (o : Outgoing)
        → Gave sent parts o
        → InStep (map need (sent ++ o.messages)) parts }
    ensures carried { (sent : List QueuedMessage) (parts : List Part) (o : Outgoing)
        → Gave sent parts o
        → HaveCarried sent o.left parts }
{}

/// An inbox gave each token that it was fed exactly once, in order, or the token still waits.
pub fn no_token_is_lost()
    ensures { (fed given : List ℕ) (a : Arrived) → Gives fed given a → fed ≡ given ++ a.tokens }
{}

/// A reader may go through pieces in step in any way. After the first message was read with its
/// tokens, the others are still in step. Two adjacent pieces may count as one. A piece of which
/// only some bytes are taken at first, with all of its tokens, may count as two.
pub fn reading_in_step()
    ensures first { (n : Need) (needs : List Need) (p : Part) (parts : List Part)
        → InStep (n ∷ needs) (p ∷ parts) → 0 < length p.bytes
        → (n.tokens ≤ length p.tokens) ⊎ (part_tokens parts ≡ []) }
    ensures read { (n : Need) (needs : List Need) (p : Part) (parts : List Part)
        → InStep (n ∷ needs) (p ∷ parts) → n.size ≤ length p.bytes → n.tokens ≤ length p.tokens
        → InStep needs (record {
          bytes = drop n.size p.bytes;
          tokens = drop n.tokens p.tokens;
        } ∷ parts) }
    ensures joined { (needs : List Need) (p q : Part) (parts : List Part)
        → InStep needs (p ∷ q ∷ parts)
        → InStep needs (record {
          bytes = p.bytes ++ q.bytes;
          tokens = p.tokens
              ++ q.tokens;
        } ∷ parts) }
    ensures parted { (needs : List Need) (p : Part) (n : ℕ) (parts : List Part)
        → InStep needs (p ∷ parts)
        → InStep needs (record {
          bytes = take n p.bytes;
          tokens = p.tokens;
        } ∷ record { bytes = drop n p.bytes; tokens = [] } ∷ parts) }
{}
