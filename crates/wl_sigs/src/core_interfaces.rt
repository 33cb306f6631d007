//! The core interfaces, as the code stores them.

use wl_rules::Destroys;
use wl_wire::Kind::{Array, Fd, Fixed, Int, New, Obj, Str, Uint};
use wl_wire::{Iface, Kind};

/// A message of a core interface.
#[derive(Clone, Copy)]
pub(crate) struct CoreMessage {
    pub(crate) name: &'static [u8],
    pub(crate) since: u32,
    pub(crate) kinds: &'static [Kind],
    pub(crate) destroys: Destroys,
}

/// A core interface with its messages, at their opcodes.
#[derive(Clone, Copy)]
pub(crate) struct CoreInterface {
    pub(crate) name: &'static [u8],
    pub(crate) version: u32,
    pub(crate) requests: &'static [CoreMessage],
    pub(crate) events: &'static [CoreMessage],
}

// A message's name, the version of its interface that introduced it, the kinds of its arguments,
// and `destroys` if it destroys its target, or `destroys N` if it destroys the object that its
// argument at index N names.
macro_rules! message {
    ($name:literal, $since:literal, [$($kind:expr),*]) => {
        CoreMessage {
            name: $name,
            since: $since,
            kinds: &[$($kind),*],
            destroys: Destroys::Nothing,
        }
    };
    ($name:literal, $since:literal, [$($kind:expr),*], destroys) => {
        CoreMessage {
            name: $name,
            since: $since,
            kinds: &[$($kind),*],
            destroys: Destroys::Target,
        }
    };
    ($name:literal, $since:literal, [$($kind:expr),*], destroys $place:literal) => {
        CoreMessage {
            name: $name,
            since: $since,
            kinds: &[$($kind),*],
            destroys: Destroys::Arg($place),
        }
    };
}

macro_rules! object {
    ($iface:expr) => { Obj { null: false, iface: Some($iface) } };
}

macro_rules! object_or_null {
    ($iface:expr) => { Obj { null: true, iface: Some($iface) } };
}

macro_rules! new {
    ($iface:expr) => { New(Some($iface)) };
}

const STRING: Kind = Str { null: false };

const ANY_OBJECT: Kind = Obj {
    null: false,
    iface: None,
};

// Made by scripts/core_files.py from core.xml, down to the next mark.

const WL_REGISTRY: Iface = Iface(1);

const WL_CALLBACK: Iface = Iface(2);

const WL_SHM_POOL: Iface = Iface(5);

const WL_BUFFER: Iface = Iface(6);

const WL_SURFACE: Iface = Iface(7);

const WL_REGION: Iface = Iface(8);

const WL_SEAT: Iface = Iface(9);

const WL_POINTER: Iface = Iface(10);

const WL_KEYBOARD: Iface = Iface(11);

const WL_TOUCH: Iface = Iface(12);

const WL_OUTPUT: Iface = Iface(13);

const WL_SUBSURFACE: Iface = Iface(15);

const WL_SHELL_SURFACE: Iface = Iface(17);

/// The core interfaces in order.
pub(crate) const CORE: [CoreInterface; 19] = [
    CoreInterface {
        name: b"wl_display",
        version: 1,
        requests: &[
            message!(b"sync", 1, [new!(WL_CALLBACK)]),
            message!(b"get_registry", 1, [new!(WL_REGISTRY)]),
        ],
        events: &[
            message!(b"error", 1, [ANY_OBJECT, Uint, STRING]),
            message!(b"delete_id", 1, [Uint]),
        ],
    },
    CoreInterface {
        name: b"wl_registry",
        version: 1,
        requests: &[message!(b"bind", 1, [Uint, New(None)])],
        events: &[
            message!(b"global", 1, [Uint, STRING, Uint]),
            message!(b"global_remove", 1, [Uint]),
        ],
    },
    CoreInterface {
        name: b"wl_callback",
        version: 1,
        requests: &[],
        events: &[message!(b"done", 1, [Uint], destroys)],
    },
    CoreInterface {
        name: b"wl_compositor",
        version: 6,
        requests: &[
            message!(b"create_surface", 1, [new!(WL_SURFACE)]),
            message!(b"create_region", 1, [new!(WL_REGION)]),
        ],
        events: &[],
    },
    CoreInterface {
        name: b"wl_shm",
        version: 2,
        requests: &[
            message!(b"create_pool", 1, [new!(WL_SHM_POOL), Fd, Int]),
            message!(b"release", 2, [], destroys),
        ],
        events: &[message!(b"format", 1, [Uint])],
    },
    CoreInterface {
        name: b"wl_shm_pool",
        version: 2,
        requests: &[
            message!(
                b"create_buffer",
                1,
                [new!(WL_BUFFER), Int, Int, Int, Int, Uint]
            ),
            message!(b"destroy", 1, [], destroys),
            message!(b"resize", 1, [Int]),
        ],
        events: &[],
    },
    CoreInterface {
        name: b"wl_buffer",
        version: 1,
        requests: &[message!(b"destroy", 1, [], destroys)],
        events: &[message!(b"release", 1, [])],
    },
    CoreInterface {
        name: b"wl_surface",
        version: 6,
        requests: &[
            message!(b"destroy", 1, [], destroys),
            message!(b"attach", 1, [object_or_null!(WL_BUFFER), Int, Int]),
            message!(b"damage", 1, [Int, Int, Int, Int]),
            message!(b"frame", 1, [new!(WL_CALLBACK)]),
            message!(b"set_opaque_region", 1, [object_or_null!(WL_REGION)]),
            message!(b"set_input_region", 1, [object_or_null!(WL_REGION)]),
            message!(b"commit", 1, []),
            message!(b"set_buffer_transform", 2, [Int]),
            message!(b"set_buffer_scale", 3, [Int]),
            message!(b"damage_buffer", 4, [Int, Int, Int, Int]),
            message!(b"offset", 5, [Int, Int]),
        ],
        events: &[
            message!(b"enter", 1, [object!(WL_OUTPUT)]),
            message!(b"leave", 1, [object!(WL_OUTPUT)]),
            message!(b"preferred_buffer_scale", 6, [Int]),
            message!(b"preferred_buffer_transform", 6, [Uint]),
        ],
    },
    CoreInterface {
        name: b"wl_region",
        version: 1,
        requests: &[
            message!(b"destroy", 1, [], destroys),
            message!(b"add", 1, [Int, Int, Int, Int]),
            message!(b"subtract", 1, [Int, Int, Int, Int]),
        ],
        events: &[],
    },
    CoreInterface {
        name: b"wl_seat",
        version: 9,
        requests: &[
            message!(b"get_pointer", 1, [new!(WL_POINTER)]),
            message!(b"get_keyboard", 1, [new!(WL_KEYBOARD)]),
            message!(b"get_touch", 1, [new!(WL_TOUCH)]),
            message!(b"release", 5, [], destroys),
        ],
        events: &[
            message!(b"capabilities", 1, [Uint]),
            message!(b"name", 2, [STRING]),
        ],
    },
    CoreInterface {
        name: b"wl_pointer",
        version: 9,
        requests: &[
            message!(
                b"set_cursor",
                1,
                [Uint, object_or_null!(WL_SURFACE), Int, Int]
            ),
            message!(b"release", 3, [], destroys),
        ],
        events: &[
            message!(b"enter", 1, [Uint, object!(WL_SURFACE), Fixed, Fixed]),
            message!(b"leave", 1, [Uint, object!(WL_SURFACE)]),
            message!(b"motion", 1, [Uint, Fixed, Fixed]),
            message!(b"button", 1, [Uint, Uint, Uint, Uint]),
            message!(b"axis", 1, [Uint, Uint, Fixed]),
            message!(b"frame", 5, []),
            message!(b"axis_source", 5, [Uint]),
            message!(b"axis_stop", 5, [Uint, Uint]),
            message!(b"axis_discrete", 5, [Uint, Int]),
            message!(b"axis_value120", 8, [Uint, Int]),
            message!(b"axis_relative_direction", 9, [Uint, Uint]),
        ],
    },
    CoreInterface {
        name: b"wl_keyboard",
        version: 9,
        requests: &[message!(b"release", 3, [], destroys)],
        events: &[
            message!(b"keymap", 1, [Uint, Fd, Uint]),
            message!(b"enter", 1, [Uint, object!(WL_SURFACE), Array]),
            message!(b"leave", 1, [Uint, object!(WL_SURFACE)]),
            message!(b"key", 1, [Uint, Uint, Uint, Uint]),
            message!(b"modifiers", 1, [Uint, Uint, Uint, Uint, Uint]),
            message!(b"repeat_info", 4, [Int, Int]),
        ],
    },
    CoreInterface {
        name: b"wl_touch",
        version: 9,
        requests: &[message!(b"release", 3, [], destroys)],
        events: &[
            message!(
                b"down",
                1,
                [Uint, Uint, object!(WL_SURFACE), Int, Fixed, Fixed]
            ),
            message!(b"up", 1, [Uint, Uint, Int]),
            message!(b"motion", 1, [Uint, Int, Fixed, Fixed]),
            message!(b"frame", 1, []),
            message!(b"cancel", 1, []),
            message!(b"shape", 6, [Int, Fixed, Fixed]),
            message!(b"orientation", 6, [Int, Fixed]),
        ],
    },
    CoreInterface {
        name: b"wl_output",
        version: 4,
        requests: &[message!(b"release", 3, [], destroys)],
        events: &[
            message!(
                b"geometry",
                1,
                [Int, Int, Int, Int, Int, STRING, STRING, Int]
            ),
            message!(b"mode", 1, [Uint, Int, Int, Int]),
            message!(b"done", 2, []),
            message!(b"scale", 2, [Int]),
            message!(b"name", 4, [STRING]),
            message!(b"description", 4, [STRING]),
        ],
    },
    CoreInterface {
        name: b"wl_subcompositor",
        version: 1,
        requests: &[
            message!(b"destroy", 1, [], destroys),
            message!(
                b"get_subsurface",
                1,
                [
                    new!(WL_SUBSURFACE),
                    object!(WL_SURFACE),
                    object!(WL_SURFACE)
                ]
            ),
        ],
        events: &[],
    },
    CoreInterface {
        name: b"wl_subsurface",
        version: 1,
        requests: &[
            message!(b"destroy", 1, [], destroys),
            message!(b"set_position", 1, [Int, Int]),
            message!(b"place_above", 1, [object!(WL_SURFACE)]),
            message!(b"place_below", 1, [object!(WL_SURFACE)]),
            message!(b"set_sync", 1, []),
            message!(b"set_desync", 1, []),
        ],
        events: &[],
    },
    CoreInterface {
        name: b"wl_shell",
        version: 1,
        requests: &[message!(
            b"get_shell_surface",
            1,
            [new!(WL_SHELL_SURFACE), object!(WL_SURFACE)]
        )],
        events: &[],
    },
    CoreInterface {
        name: b"wl_shell_surface",
        version: 1,
        requests: &[
            message!(b"pong", 1, [Uint]),
            message!(b"move", 1, [object!(WL_SEAT), Uint]),
            message!(b"resize", 1, [object!(WL_SEAT), Uint, Uint]),
            message!(b"set_toplevel", 1, []),
            message!(b"set_transient", 1, [object!(WL_SURFACE), Int, Int, Uint]),
            message!(
                b"set_fullscreen",
                1,
                [Uint, Uint, object_or_null!(WL_OUTPUT)]
            ),
            message!(
                b"set_popup",
                1,
                [object!(WL_SEAT), Uint, object!(WL_SURFACE), Int, Int, Uint]
            ),
            message!(b"set_maximized", 1, [object_or_null!(WL_OUTPUT)]),
            message!(b"set_title", 1, [STRING]),
            message!(b"set_class", 1, [STRING]),
        ],
        events: &[
            message!(b"ping", 1, [Uint]),
            message!(b"configure", 1, [Uint, Int, Int]),
            message!(b"popup_done", 1, []),
        ],
    },
    CoreInterface {
        name: b"wl_fixes",
        version: 1,
        requests: &[
            message!(b"destroy", 1, [], destroys),
            message!(b"destroy_registry", 1, [object!(WL_REGISTRY)], destroys 0),
        ],
        events: &[],
    },
];

/// The same where no request destroys and every event is there from version 1 on, except the
/// four that all tables have.
pub(crate) const UNENDED: [CoreInterface; 19] = [
    CoreInterface {
        name: b"wl_display",
        version: 1,
        requests: &[
            message!(b"sync", 1, [new!(WL_CALLBACK)]),
            message!(b"get_registry", 1, [new!(WL_REGISTRY)]),
        ],
        events: &[
            message!(b"error", 1, [ANY_OBJECT, Uint, STRING]),
            message!(b"delete_id", 1, [Uint]),
        ],
    },
    CoreInterface {
        name: b"wl_registry",
        version: 1,
        requests: &[message!(b"bind", 1, [Uint, New(None)])],
        events: &[
            message!(b"global", 1, [Uint, STRING, Uint]),
            message!(b"global_remove", 1, [Uint]),
        ],
    },
    CoreInterface {
        name: b"wl_callback",
        version: 1,
        requests: &[],
        events: &[message!(b"done", 1, [Uint], destroys)],
    },
    CoreInterface {
        name: b"wl_compositor",
        version: 6,
        requests: &[
            message!(b"create_surface", 1, [new!(WL_SURFACE)]),
            message!(b"create_region", 1, [new!(WL_REGION)]),
        ],
        events: &[],
    },
    CoreInterface {
        name: b"wl_shm",
        version: 2,
        requests: &[
            message!(b"create_pool", 1, [new!(WL_SHM_POOL), Fd, Int]),
            message!(b"release", 2, []),
        ],
        events: &[message!(b"format", 1, [Uint])],
    },
    CoreInterface {
        name: b"wl_shm_pool",
        version: 2,
        requests: &[
            message!(
                b"create_buffer",
                1,
                [new!(WL_BUFFER), Int, Int, Int, Int, Uint]
            ),
            message!(b"destroy", 1, []),
            message!(b"resize", 1, [Int]),
        ],
        events: &[],
    },
    CoreInterface {
        name: b"wl_buffer",
        version: 1,
        requests: &[message!(b"destroy", 1, [])],
        events: &[message!(b"release", 1, [])],
    },
    CoreInterface {
        name: b"wl_surface",
        version: 6,
        requests: &[
            message!(b"destroy", 1, []),
            message!(b"attach", 1, [object_or_null!(WL_BUFFER), Int, Int]),
            message!(b"damage", 1, [Int, Int, Int, Int]),
            message!(b"frame", 1, [new!(WL_CALLBACK)]),
            message!(b"set_opaque_region", 1, [object_or_null!(WL_REGION)]),
            message!(b"set_input_region", 1, [object_or_null!(WL_REGION)]),
            message!(b"commit", 1, []),
            message!(b"set_buffer_transform", 2, [Int]),
            message!(b"set_buffer_scale", 3, [Int]),
            message!(b"damage_buffer", 4, [Int, Int, Int, Int]),
            message!(b"offset", 5, [Int, Int]),
        ],
        events: &[
            message!(b"enter", 1, [object!(WL_OUTPUT)]),
            message!(b"leave", 1, [object!(WL_OUTPUT)]),
            message!(b"preferred_buffer_scale", 1, [Int]),
            message!(b"preferred_buffer_transform", 1, [Uint]),
        ],
    },
    CoreInterface {
        name: b"wl_region",
        version: 1,
        requests: &[
            message!(b"destroy", 1, []),
            message!(b"add", 1, [Int, Int, Int, Int]),
            message!(b"subtract", 1, [Int, Int, Int, Int]),
        ],
        events: &[],
    },
    CoreInterface {
        name: b"wl_seat",
        version: 9,
        requests: &[
            message!(b"get_pointer", 1, [new!(WL_POINTER)]),
            message!(b"get_keyboard", 1, [new!(WL_KEYBOARD)]),
            message!(b"get_touch", 1, [new!(WL_TOUCH)]),
            message!(b"release", 5, []),
        ],
        events: &[
            message!(b"capabilities", 1, [Uint]),
            message!(b"name", 1, [STRING]),
        ],
    },
    CoreInterface {
        name: b"wl_pointer",
        version: 9,
        requests: &[
            message!(
                b"set_cursor",
                1,
                [Uint, object_or_null!(WL_SURFACE), Int, Int]
            ),
            message!(b"release", 3, []),
        ],
        events: &[
            message!(b"enter", 1, [Uint, object!(WL_SURFACE), Fixed, Fixed]),
            message!(b"leave", 1, [Uint, object!(WL_SURFACE)]),
            message!(b"motion", 1, [Uint, Fixed, Fixed]),
            message!(b"button", 1, [Uint, Uint, Uint, Uint]),
            message!(b"axis", 1, [Uint, Uint, Fixed]),
            message!(b"frame", 1, []),
            message!(b"axis_source", 1, [Uint]),
            message!(b"axis_stop", 1, [Uint, Uint]),
            message!(b"axis_discrete", 1, [Uint, Int]),
            message!(b"axis_value120", 1, [Uint, Int]),
            message!(b"axis_relative_direction", 1, [Uint, Uint]),
        ],
    },
    CoreInterface {
        name: b"wl_keyboard",
        version: 9,
        requests: &[message!(b"release", 3, [])],
        events: &[
            message!(b"keymap", 1, [Uint, Fd, Uint]),
            message!(b"enter", 1, [Uint, object!(WL_SURFACE), Array]),
            message!(b"leave", 1, [Uint, object!(WL_SURFACE)]),
            message!(b"key", 1, [Uint, Uint, Uint, Uint]),
            message!(b"modifiers", 1, [Uint, Uint, Uint, Uint, Uint]),
            message!(b"repeat_info", 1, [Int, Int]),
        ],
    },
    CoreInterface {
        name: b"wl_touch",
        version: 9,
        requests: &[message!(b"release", 3, [])],
        events: &[
            message!(
                b"down",
                1,
                [Uint, Uint, object!(WL_SURFACE), Int, Fixed, Fixed]
            ),
            message!(b"up", 1, [Uint, Uint, Int]),
            message!(b"motion", 1, [Uint, Int, Fixed, Fixed]),
            message!(b"frame", 1, []),
            message!(b"cancel", 1, []),
            message!(b"shape", 1, [Int, Fixed, Fixed]),
            message!(b"orientation", 1, [Int, Fixed]),
        ],
    },
    CoreInterface {
        name: b"wl_output",
        version: 4,
        requests: &[message!(b"release", 3, [])],
        events: &[
            message!(
                b"geometry",
                1,
                [Int, Int, Int, Int, Int, STRING, STRING, Int]
            ),
            message!(b"mode", 1, [Uint, Int, Int, Int]),
            message!(b"done", 1, []),
            message!(b"scale", 1, [Int]),
            message!(b"name", 1, [STRING]),
            message!(b"description", 1, [STRING]),
        ],
    },
    CoreInterface {
        name: b"wl_subcompositor",
        version: 1,
        requests: &[
            message!(b"destroy", 1, []),
            message!(
                b"get_subsurface",
                1,
                [
                    new!(WL_SUBSURFACE),
                    object!(WL_SURFACE),
                    object!(WL_SURFACE)
                ]
            ),
        ],
        events: &[],
    },
    CoreInterface {
        name: b"wl_subsurface",
        version: 1,
        requests: &[
            message!(b"destroy", 1, []),
            message!(b"set_position", 1, [Int, Int]),
            message!(b"place_above", 1, [object!(WL_SURFACE)]),
            message!(b"place_below", 1, [object!(WL_SURFACE)]),
            message!(b"set_sync", 1, []),
            message!(b"set_desync", 1, []),
        ],
        events: &[],
    },
    CoreInterface {
        name: b"wl_shell",
        version: 1,
        requests: &[message!(
            b"get_shell_surface",
            1,
            [new!(WL_SHELL_SURFACE), object!(WL_SURFACE)]
        )],
        events: &[],
    },
    CoreInterface {
        name: b"wl_shell_surface",
        version: 1,
        requests: &[
            message!(b"pong", 1, [Uint]),
            message!(b"move", 1, [object!(WL_SEAT), Uint]),
            message!(b"resize", 1, [object!(WL_SEAT), Uint, Uint]),
            message!(b"set_toplevel", 1, []),
            message!(b"set_transient", 1, [object!(WL_SURFACE), Int, Int, Uint]),
            message!(
                b"set_fullscreen",
                1,
                [Uint, Uint, object_or_null!(WL_OUTPUT)]
            ),
            message!(
                b"set_popup",
                1,
                [object!(WL_SEAT), Uint, object!(WL_SURFACE), Int, Int, Uint]
            ),
            message!(b"set_maximized", 1, [object_or_null!(WL_OUTPUT)]),
            message!(b"set_title", 1, [STRING]),
            message!(b"set_class", 1, [STRING]),
        ],
        events: &[
            message!(b"ping", 1, [Uint]),
            message!(b"configure", 1, [Uint, Int, Int]),
            message!(b"popup_done", 1, []),
        ],
    },
    CoreInterface {
        name: b"wl_fixes",
        version: 1,
        requests: &[
            message!(b"destroy", 1, [], destroys),
            message!(b"destroy_registry", 1, [object!(WL_REGISTRY)], destroys 0),
        ],
        events: &[],
    },
];

// End of what is generated.
