// Made by scripts/core_files.py.
//! The opcodes of the core interfaces' events, which a server writes.
//!
//! `event::wl_callback::DONE` is the opcode of wl_callback.done in the core tables. Each
//! constant is the opcode of the message with its name: the law `opcodes_are_of_their_names`.

pub mod wl_display {
    pub const ERROR: u16 = 0;

    pub const DELETE_ID: u16 = 1;
}

pub mod wl_registry {
    pub const GLOBAL: u16 = 0;

    pub const GLOBAL_REMOVE: u16 = 1;
}

pub mod wl_callback {
    pub const DONE: u16 = 0;
}

pub mod wl_shm {
    pub const FORMAT: u16 = 0;
}

pub mod wl_buffer {
    pub const RELEASE: u16 = 0;
}

pub mod wl_surface {
    pub const ENTER: u16 = 0;

    pub const LEAVE: u16 = 1;

    pub const PREFERRED_BUFFER_SCALE: u16 = 2;

    pub const PREFERRED_BUFFER_TRANSFORM: u16 = 3;
}

pub mod wl_seat {
    pub const CAPABILITIES: u16 = 0;

    pub const NAME: u16 = 1;
}

pub mod wl_pointer {
    pub const ENTER: u16 = 0;

    pub const LEAVE: u16 = 1;

    pub const MOTION: u16 = 2;

    pub const BUTTON: u16 = 3;

    pub const AXIS: u16 = 4;

    pub const FRAME: u16 = 5;

    pub const AXIS_SOURCE: u16 = 6;

    pub const AXIS_STOP: u16 = 7;

    pub const AXIS_DISCRETE: u16 = 8;

    pub const AXIS_VALUE120: u16 = 9;

    pub const AXIS_RELATIVE_DIRECTION: u16 = 10;
}

pub mod wl_keyboard {
    pub const KEYMAP: u16 = 0;

    pub const ENTER: u16 = 1;

    pub const LEAVE: u16 = 2;

    pub const KEY: u16 = 3;

    pub const MODIFIERS: u16 = 4;

    pub const REPEAT_INFO: u16 = 5;
}

pub mod wl_touch {
    pub const DOWN: u16 = 0;

    pub const UP: u16 = 1;

    pub const MOTION: u16 = 2;

    pub const FRAME: u16 = 3;

    pub const CANCEL: u16 = 4;

    pub const SHAPE: u16 = 5;

    pub const ORIENTATION: u16 = 6;
}

pub mod wl_output {
    pub const GEOMETRY: u16 = 0;

    pub const MODE: u16 = 1;

    pub const DONE: u16 = 2;

    pub const SCALE: u16 = 3;

    pub const NAME: u16 = 4;

    pub const DESCRIPTION: u16 = 5;
}

pub mod wl_shell_surface {
    pub const PING: u16 = 0;

    pub const CONFIGURE: u16 = 1;

    pub const POPUP_DONE: u16 = 2;
}
