//! The results of some table texts, worked out by hand. Each is the contract of a function that
//! does nothing.
ghost use Rattle.std.specs.Prelude.{◌≡◌, codes, Some, None};
ghost use Rattle.wl_text.specs.declared.fault.TableFault.TheVariants.{BadLine, BadTable};
ghost use Rattle.wl_sigs.specs.Samples.{fault_of_text, version_in_text, message_in_text};
ghost use Rattle.wl_sigs.specs.Side.TheVariants.{Request};

/// An event that makes an object, an event that names it, and the request that ends it. Then the
/// same without the interface's name, and with a new object of the client instead.
#[tactic(auto, unfolding(crate::specs::Core::core_tables))]
pub fn server_objects()
    ensures made { fault_of_text (codes
        "interface device 3\nrequest release D\nevent made N(offer)\nevent show ?o(offer)\ninterface offer 3\nrequest destroy D")
        ≡ None }
    ensures nameless { fault_of_text (codes "interface device 3\nevent made N") ≡ Some (BadLine 2) }
    ensures of_client { fault_of_text (codes "interface device 3\nevent made n(device)")
        ≡ Some (BadTable 2 4) }
{}

/// Extensions of wl_seat, of an interface declared earlier, and of both, one after another; with an
/// interface declared later.
#[tactic(auto, unfolding(crate::specs::Core::core_tables))]
pub fn extensions()
    ensures same { fault_of_text (codes "extend wl_seat 9") ≡ None }
    ensures newer { fault_of_text (codes
        "extend wl_seat 10\nrequest make n(offer) @10\nextend wl_seat 11\nevent show ?o(offer) @11\ninterface offer 1\nrequest destroy D")
        ≡ None }
    ensures of_text { fault_of_text (codes
        "interface offer 1\nrequest destroy D\nextend offer 2\nrequest name s @2") ≡ None }
    ensures at_its_place { version_in_text (codes "extend wl_seat 10\nextend wl_seat 12") 9
        ≡ Some 12 }
    ensures behind { message_in_text (codes "extend wl_seat 10\nrequest first\nrequest next") 9
        Request 5 ≡ Some (codes "next") }
    ensures in_front { message_in_text (codes "extend wl_seat 10\nrequest first") 9 Request 3
        ≡ Some (codes "release") }
{}

/// Extensions out of place: of each of the four fixed interfaces, below the current version, of no
/// interface and of one declared later; messages that break V1, V7 twice, V8 and V11 because of
/// other messages.
#[tactic(auto, unfolding(crate::specs::Core::core_tables))]
pub fn extensions_out_of_place()
    ensures display { fault_of_text (codes "extend wl_display 2") ≡ Some (BadTable 1 2) }
    ensures registry { fault_of_text (codes "extend wl_registry 2") ≡ Some (BadTable 1 2) }
    ensures callback { fault_of_text (codes "extend wl_callback 2") ≡ Some (BadTable 1 2) }
    ensures fixes { fault_of_text (codes "extend wl_fixes 2") ≡ Some (BadTable 1 2) }
    ensures lower { fault_of_text (codes "extend wl_seat 10\nextend wl_seat 9")
        ≡ Some (BadTable 2 8) }
    ensures unknown { fault_of_text (codes "extend device 2") ≡ Some (BadTable 1 9) }
    ensures above { fault_of_text (codes "extend device 2\ninterface device 1")
        ≡ Some (BadTable 1 9) }
    ensures named_again { fault_of_text (codes "extend wl_seat 10\nrequest release D @10")
        ≡ Some (BadTable 2 1) }
    ensures has_requests { fault_of_text (codes "extend wl_seat 10\nevent gone D @10")
        ≡ Some (BadTable 2 7) }
    ensures is_argument { fault_of_text (codes
        "interface device 1\nrequest take o(offer)\ninterface offer 1\nextend offer 2\nevent gone D")
        ≡ Some (BadTable 2 7) }
    ensures later { fault_of_text (codes "extend wl_seat 10\nrequest newer @11")
        ≡ Some (BadTable 2 8) }
    ensures is_made { fault_of_text (codes
        "interface device 1\nevent made N(offer)\ninterface offer 1\nextend offer 2\nevent gone D")
        ≡ Some (BadTable 2 11) }
{}

/// V11: in a request, twice in an event, of an interface that a later event destroys, and of each
/// of the four fixed interfaces.
#[tactic(auto, unfolding(crate::specs::Core::core_tables))]
pub fn server_objects_out_of_place()
    ensures request { fault_of_text (codes "interface device 3\nrequest make N(device)")
        ≡ Some (BadTable 2 11) }
    ensures two { fault_of_text (codes "interface device 3\nevent made N(device) N(device)")
        ≡ Some (BadTable 2 11) }
    ensures ended { fault_of_text (codes
        "interface device 3\nevent made N(offer)\ninterface offer 3\nevent gone D")
        ≡ Some (BadTable 2 11) }
    ensures display { fault_of_text (codes "interface device 3\nevent made N(wl_display)")
        ≡ Some (BadTable 2 11) }
    ensures registry { fault_of_text (codes "interface device 3\nevent made N(wl_registry)")
        ≡ Some (BadTable 2 11) }
    ensures callback { fault_of_text (codes "interface device 3\nevent made N(wl_callback)")
        ≡ Some (BadTable 2 11) }
    ensures fixes { fault_of_text (codes "interface device 3\nevent made N(wl_fixes)")
        ≡ Some (BadTable 2 11) }
{}
