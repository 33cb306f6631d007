//! Interfaces in order.
ghost use Rattle.std.specs.Prelude.{◌≡◌, ◌⊎◌, ◌↔◌, ℕ, [], true, Err, Some, None, IfOk, map};
ghost use Rattle.std.specs.Prelude.{option_copied};
ghost use Rattle.std.specs.Prelude.{option_map, position, bytes_eq, length, IfSome, ◌<◌};
ghost use Rattle.wl_sigs.specs.Core.{core_tables, unended_tables};
ghost use Rattle.wl_sigs.specs.ByName.{opcode_of};
ghost use Rattle.wl_sigs.specs.Tables.{HasServerObjects, MessageSignature, interface_at};
ghost use Rattle.wl_sigs.specs.Tables.{signature_at, place_of};
ghost use Rattle.wl_sigs.specs.Rules.{has_server_objects, is_ended_by_event, is_ended_by_request};
ghost use Rattle.wl_sigs.specs.Valid.{Valid};
ghost use Rattle.wl_sigs.specs.Written.{interface_written};
ghost use Rattle.wl_sigs.specs.Joined.{all_names};
ghost use Rattle.wl_sigs.specs.Broken.{earlier, ended_of};
ghost use Rattle.wl_sigs.specs.Extended.{extended, gathered, grown, whole_of};
ghost use Rattle.wl_sigs.specs.Extending.{first_line_broken, messages_or_declared_broken};
ghost use Rattle.wl_sigs.specs.BrokenLines.{broken};
ghost use Rattle.wl_sigs.specs.Places.{place_in, ArePlaces};
ghost use Rattle.wl_sigs.specs.Outcome.{outcome};
ghost use Rattle.wl_text.specs.declared.fault.TableFault.TheVariants.{Memory};

use crate::added::{Known, added_broken};
use crate::core_interfaces::{CORE, CoreInterface, UNENDED};
use crate::interface::StoredInterface;
use crate::signature::Signature;
use std::alloc::{AllocError, Allocator, Global};
use std::marker::Model;
use wl_rules::{
    BrokenLine, Gathered, HashedName, MAX_NAME_LEN, Places, Side, earlier, gather,
    interfaces_broken, none_extends, places_of,
};
use wl_text::{TableFault, WrittenInterface, read_interfaces};
use wl_wire::Iface;

/// How long a text may be so that going through all names for each of its own takes less than a map
/// of them takes to make.
const SHORT_TEXT: usize = 1024;

/// Signature tables: a list of interfaces, with the signatures of their messages.
///
/// Tables are always valid: names are distinct and consist of `a` to `z`, `0` to `9` and `_`;
/// wl_display, wl_registry and wl_callback come first, and wl_fixes has its index; sizes are
/// bounded; a message makes at most one object, a request one of the client, an event one of the
/// server; no request names an object that an event may destroy; and only wl_fixes.destroy_registry
/// destroys its argument.
#[derive(Debug, Drop)]
pub struct Tables<A: Allocator = Global> {
    interfaces: Vec<StoredInterface<A>, A>,
}

impl<A: Allocator> Model for Tables<A> {
    ghost use Rattle.std.specs.Prelude.{List};
    ghost use Rattle.wl_sigs.specs.Tables.{Interface};

    ghost Value = { List Interface };

    ghost use Rattle.wl_sigs.specs.Valid.{Valid};

    ghost view = { λ t. t.interfaces.items };

    ghost invariant = { λ t. Valid t.interfaces.items };
}

impl<A: Allocator> Tables<A> {
    /// The index of the interface with this name; `None` if the tables have none.
    pub fn interface(&self, name: &[u8]) -> Option<Iface>
        ensures answer { result ≡ place_of self.now name.now }
        ensures valid { Valid self.now }
    {
        let place = place_in(self.interfaces.as_slice(), name)?;
        Some(Iface(place as u16))
    }

    /// The name of the interface at an index; `None` past the tables.
    pub fn name(&self, iface: Iface) -> Option<&[u8]>
        ensures answer { option_copied result
            ≡ option_map (λ i. i.name) (interface_at self.now iface.0) }
        ensures valid { Valid self.now }
    {
        let entry = self.entry(iface)?;
        Some(entry.name())
    }

    /// The version of the interface at an index; `None` past the tables.
    pub fn version(&self, iface: Iface) -> Option<u32>
        ensures answer { result ≡ option_map (λ i. i.version) (interface_at self.now iface.0) }
        ensures valid { Valid self.now }
    {
        let entry = self.entry(iface)?;
        Some(entry.version())
    }

    /// The signature of the request or event with this opcode, in constant time. `None` past the
    /// tables, or if the interface has no such opcode.
    pub fn message(&self, iface: Iface, side: Side, opcode: u16) -> Option<&Signature<A>>
        ensures answer { option_copied result ≡ signature_at self.now iface.0 side opcode }
        ensures valid { Valid self.now }
    {
        let entry = self.entry(iface)?;
        entry.messages(side).get(opcode as usize)
    }

    /// The opcode of the request or event with this name. `None` past the tables, or if the
    /// interface has no such message on that side. It compares names one after the other.
    pub fn opcode(&self, iface: Iface, side: Side, name: &[u8]) -> Option<u16>
        ensures answer { result ≡ opcode_of self.now iface.0 side name.now }
        ensures found { (opcode : ℕ) → (result ≡ Some opcode)
            ↔ ((m : MessageSignature) × (signature_at self.now iface.0 side opcode ≡ Some m)
            × (m.name ≡ name.now)) }
        ensures valid { Valid self.now }
    {
        let entry = self.entry(iface)?;
        let opcode = entry.opcode(side, name)?;
        Some(opcode as u16)
    }

    /// Whether an event destroys objects of the interface at an index. False past the tables.
    pub fn ends_by_event(&self, iface: Iface) -> bool
        ensures answer { result ≡ is_ended_by_event (interface_at self.now iface.0) }
        ensures valid { Valid self.now }
    {
        match self.entry(iface) {
            Some(entry) => entry.has_destroying_event(),
            None => false,
        }
    }

    /// Whether the interface at an index has, at a version, a request that destroys its target.
    /// False past the tables.
    pub fn ends_by_request(&self, iface: Iface, version: u32) -> bool
        ensures answer { result ≡ is_ended_by_request version (interface_at self.now iface.0) }
        ensures valid { Valid self.now }
    {
        let Some(entry) = self.entry(iface) else {
            return false;
        };
        entry.has_destroying_request(version)
    }

    /// Whether some event has a new object of the server, an `N` of a text. It checks every event.
    pub fn has_server_objects(&self) -> bool
        ensures answer { result ≡ has_server_objects self.now }
        ensures told { (result ≡ true) ↔ HasServerObjects self.now }
        ensures valid { Valid self.now }
    {
        self.lists_server_objects()
    }

    fn lists_server_objects(&self) -> bool
        ensures answer { result ≡ has_server_objects self.now }
        ensures valid { Valid self.now }
    {
        self.interfaces
            .iter()
            .any(|entry| entry.has_server_objects())
    }

    fn entry(&self, iface: Iface) -> Option<&StoredInterface<A>>
        ensures answer { option_copied result ≡ interface_at self.now iface.0 }
        ensures valid { Valid self.now }
    {
        self.interfaces.get(iface.0 as usize)
    }
}

impl<A: Allocator + Clone + Drop> Tables<A> {
    /// The core interfaces of wayland.xml, without data transfer; wl_display has index 0. The only
    /// error is out of memory.
    pub fn core(alloc: A) -> Result<Self, AllocError>
        ensures holds { IfOk result (λ tables. tables ≡ core_tables) }
        ensures valid { IfOk result (λ tables. Valid tables) }
    {
        Self::of(alloc, &CORE)
    }

    /// The core interfaces where no request destroys an object, except those of wl_fixes, and where
    /// every event is there from version 1 on. They are for a server whose caller ends objects
    /// itself, with `Server::end_object`, and judges the versions of events. The only error is out
    /// of memory.
    pub fn core_unended(alloc: A) -> Result<Self, AllocError>
        ensures holds { IfOk result (λ tables. tables ≡ unended_tables) }
        ensures valid { IfOk result (λ tables. Valid tables) }
    {
        Self::of(alloc, &UNENDED)
    }

    /// These tables extended by a text, and followed by the interfaces that it declares.
    ///
    /// Each line ends with a line feed, which the last may lack; one carriage return before a line
    /// feed is dropped. An empty line and a line that begins with `#` are skipped. Every other line
    /// has one of these forms:
    ///
    /// ```text
    /// "interface " name " " number
    /// "extend " name " " number
    /// side " " name *( " " arg ) [ " D" ] [ " @" number ]
    /// side = "request" or "event"
    /// arg  = i | u | f | s | ?s | a | h | o | ?o | o(name) | ?o(name) | n | n(name) | N(name)
    /// ```
    ///
    /// The number in the first two forms is the version of the interface. `D` marks a message that
    /// destroys its target, and `@` gives the version that introduced the message, 1 if it is
    /// missing. A name is one or more bytes other than space, `(`, `)` and the line feed; a number
    /// is 1 to 10 decimal digits, at most 4,294,967,295. `o` alone takes an object of any
    /// interface, and `n` alone makes one whose interface only the bytes give. `N` is a new object
    /// that the server makes. A message belongs to the nearest `interface` or `extend` line above
    /// it. An argument may name an interface declared later; if a name occurs twice, the first one
    /// counts, and these tables come before the text.
    ///
    /// `extend` raises the first interface of its name, in these tables or declared earlier, to the
    /// given version; the messages below the line are appended to its requests or events. Its index
    /// and its opcodes stay.
    ///
    /// `BadLine` (TB1) and `BadTable` (TB2) are as `TableFault` says. If a name occurs twice, the
    /// later interface or message breaks the rule, not the first. An `extend` breaks V9 if no
    /// earlier interface has its name, V8 if its version is lower than the interface's, and V2 if
    /// it names wl_display, wl_registry, wl_callback or wl_fixes. `Memory` (TB3) may be returned
    /// instead of any result.
    pub fn read_more(&self, text: &[u8]) -> Result<Self, TableFault>
        ensures exact { (result ≡ outcome self.now text.now) ⊎ (result ≡ Err Memory) }
        ensures valid { IfOk result (λ tables. Valid tables) }
    {
        let written = read_interfaces(self.interfaces.allocator(), text)?;
        let (gathered, of_extensions) = self.gathered(written)?;
        let is_short = text.len() <= SHORT_TEXT;
        let places = self.places(is_short, gathered.declared.as_slice())?;
        let of_others = self.first_broken(&places, &gathered)?;
        if let Some(BrokenLine { line, rule }) = earlier(of_extensions, of_others) {
            return Err(TableFault::BadTable { line, rule });
        }
        Ok(self.extended(&places, &gathered)?)
    }

    // What a text says, and its first extension that breaks a rule on its own. For a text without
    // extensions, nothing is kept about these interfaces.
    fn gathered<'n>(
        &'n self,
        written: Vec<WrittenInterface<'n, A>, A>,
    ) -> Result<(Gathered<'n, A>, Option<BrokenLine>), AllocError>
        ensures whole { IfOk result (λ all.
            whole_of self.now all.0 ≡ extended self.now written.entry.items) }
        ensures first { IfOk result (λ all.
            earlier (option_map broken all.1) (messages_or_declared_broken self.now all.0)
            ≡ first_line_broken self.now written.entry.items) }
    {
        if !none_extends(written.as_slice()) {
            return gather(self.unsaid()?, written);
        }
        let added = Vec::new(self.interfaces.allocator().clone()?);
        let gathered = Gathered {
            added,
            declared: written,
        };
        Ok((gathered, None))
    }

    // What a text says that does not mention these interfaces, and declares none.
    fn unsaid<'n>(&'n self) -> Result<Gathered<'n, A>, AllocError>
        ensures { IfOk result (λ g. g ≡ gathered self.now []) }
    {
        let alloc = self.interfaces.allocator();
        let mut added = Vec::with_capacity(alloc.clone()?, self.interfaces.len())?;
        for entry in &self.interfaces {
            added.push(entry.unsaid(alloc)?)?;
        }
        let declared = Vec::new(alloc.clone()?);
        Ok(Gathered { added, declared })
    }

    // The first index of each name of these interfaces and those of a text.
    fn places<'n>(
        &'n self,
        is_short: bool,
        written: &[WrittenInterface<'n, A>],
    ) -> Result<Places<'n, A>, AllocError>
        ensures { IfOk result (λ places. ArePlaces (place_in places) self.now written.now) }
    {
        let names = self.all_names(written)?;
        if is_short {
            return Ok(Places::Listed(names));
        }
        places_of(self.interfaces.allocator(), names.as_slice())
    }

    // The first line that adds a message to these interfaces, or declares an interface or one of
    // its messages, and breaks a rule.
    fn first_broken<'n>(
        &'n self,
        places: &Places<'n, A>,
        gathered: &Gathered<'n, A>,
    ) -> Result<Option<BrokenLine>, AllocError>
        requires { ArePlaces (place_in places.now) self.now gathered.now.declared }
        ensures { IfOk result (λ found. option_map broken found
            ≡ messages_or_declared_broken self.now gathered.now) }
    {
        let alloc = self.interfaces.allocator();
        let entries = self.interfaces.as_slice();
        let added = gathered.added.as_slice();
        let declared = gathered.declared.as_slice();
        let all_ended = self.all_ended(gathered)?;
        let ended = all_ended.as_slice();
        let known = Known {
            interfaces: entries,
            places,
            ended,
        };
        let of_added = added_broken(alloc, &known, added)?;
        let of_declared = interfaces_broken(alloc, places, ended, entries.len(), declared)?;
        Ok(earlier(of_added, of_declared))
    }

    // These tables extended by a text that breaks no rule, and followed by its interfaces.
    fn extended<'n>(
        &self,
        places: &Places<'n, A>,
        gathered: &Gathered<'n, A>,
    ) -> Result<Self, AllocError>
        requires places { ArePlaces (place_in places.now) self.now gathered.now.declared }
        requires valid { Valid (whole_of self.now gathered.now) }
        ensures { IfOk result (λ tables. tables ≡ whole_of self.now gathered.now) }
    {
        let alloc = self.interfaces.allocator();
        let entries = self.interfaces.as_slice();
        let added = gathered.added.as_slice();
        let declared = gathered.declared.as_slice();
        let past = entries.len() + declared.len();
        let mut interfaces = Vec::with_capacity(alloc.clone()?, past)?;
        for (place, entry) in entries.iter().enumerate() {
            interfaces.push(entry.grown(alloc, places, past, added.get(place))?)?;
        }
        for interface in declared {
            interfaces.push(StoredInterface::placed(alloc, places, past, interface)?)?;
        }
        Ok(Tables { interfaces })
    }

    // The names of these interfaces, then those of a text.
    fn all_names<'n>(
        &'n self,
        written: &[WrittenInterface<'n, A>],
    ) -> Result<Vec<HashedName<'n>, A>, AllocError>
        ensures { IfOk result (λ names. names.items ≡ all_names self.now written.now) }
    {
        let alloc = self.interfaces.allocator();
        let mut names = Vec::new(alloc.clone()?);
        for entry in &self.interfaces {
            names.push(entry.hashed_name())?;
        }
        for interface in written {
            names.push(HashedName::new(interface.name))?;
        }
        Ok(names)
    }

    // Which of these interfaces, with what is added to them, and then of those of a text, have an
    // event that may end their objects.
    fn all_ended(&self, gathered: &Gathered<'_, A>) -> Result<Vec<bool, A>, AllocError>
        ensures { IfOk result (λ ended. ended.items
            ≡ ended_of (grown self.now gathered.now) gathered.now.declared) }
    {
        let alloc = self.interfaces.allocator();
        let entries = self.interfaces.as_slice();
        let added = gathered.added.as_slice();
        let declared = gathered.declared.as_slice();
        let mut ended = Vec::new(alloc.clone()?);
        for (place, entry) in entries.iter().enumerate() {
            ended.push(entry.is_ended_with(added.get(place)))?;
        }
        for interface in declared {
            ended.push(interface.has_destroying_event())?;
        }
        Ok(ended)
    }

    fn of(alloc: A, interfaces: &[CoreInterface]) -> Result<Self, AllocError>
        requires { Valid (map interface_written interfaces.now) }
        ensures { IfOk result (λ tables. tables ≡ map interface_written interfaces.now) }
    {
        let mut entries = Vec::with_capacity(alloc.clone()?, interfaces.len())?;
        'interfaces: for interface in interfaces {
            entries.push(StoredInterface::of(&alloc, interface)?)?;
        }
        Ok(Tables {
            interfaces: entries,
        })
    }
}

// The index of the first interface with this name. No table has a name longer than `MAX_NAME_LEN`,
// so a longer name is not hashed.
fn place_in<A: Allocator>(entries: &[StoredInterface<A>], name: &[u8]) -> Option<usize>
    ensures place { result ≡ position (λ i. bytes_eq i.name name.now) entries.now }
    ensures within { IfSome result (λ place. place < length entries.now) }
{
    if name.len() > MAX_NAME_LEN {
        return entries.iter().position(|entry| entry.name() == name);
    }
    let wanted = HashedName::new(name);
    entries.iter().position(|entry| entry.has_name(&wanted))
}
