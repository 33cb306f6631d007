// Made by scripts/core_files.py.
//! The opcodes of the core interfaces' requests, which a client writes.
//!
//! `request::wl_surface::COMMIT` is the opcode of wl_surface.commit in the core tables. Each
//! constant is the opcode of the message with its name: the law `opcodes_are_of_their_names`.

pub mod wl_display {
    pub const SYNC: u16 = 0;

    pub const GET_REGISTRY: u16 = 1;
}

pub mod wl_registry {
    pub const BIND: u16 = 0;
}

pub mod wl_compositor {
    pub const CREATE_SURFACE: u16 = 0;

    pub const CREATE_REGION: u16 = 1;
}

pub mod wl_shm {
    pub const CREATE_POOL: u16 = 0;

    pub const RELEASE: u16 = 1;
}

pub mod wl_shm_pool {
    pub const CREATE_BUFFER: u16 = 0;

    pub const DESTROY: u16 = 1;

    pub const RESIZE: u16 = 2;
}

pub mod wl_buffer {
    pub const DESTROY: u16 = 0;
}

pub mod wl_surface {
    pub const DESTROY: u16 = 0;

    pub const ATTACH: u16 = 1;

    pub const DAMAGE: u16 = 2;

    pub const FRAME: u16 = 3;

    pub const SET_OPAQUE_REGION: u16 = 4;

    pub const SET_INPUT_REGION: u16 = 5;

    pub const COMMIT: u16 = 6;

    pub const SET_BUFFER_TRANSFORM: u16 = 7;

    pub const SET_BUFFER_SCALE: u16 = 8;

    pub const DAMAGE_BUFFER: u16 = 9;

    pub const OFFSET: u16 = 10;
}

pub mod wl_region {
    pub const DESTROY: u16 = 0;

    pub const ADD: u16 = 1;

    pub const SUBTRACT: u16 = 2;
}

pub mod wl_seat {
    pub const GET_POINTER: u16 = 0;

    pub const GET_KEYBOARD: u16 = 1;

    pub const GET_TOUCH: u16 = 2;

    pub const RELEASE: u16 = 3;
}

pub mod wl_pointer {
    pub const SET_CURSOR: u16 = 0;

    pub const RELEASE: u16 = 1;
}

pub mod wl_keyboard {
    pub const RELEASE: u16 = 0;
}

pub mod wl_touch {
    pub const RELEASE: u16 = 0;
}

pub mod wl_output {
    pub const RELEASE: u16 = 0;
}

pub mod wl_subcompositor {
    pub const DESTROY: u16 = 0;

    pub const GET_SUBSURFACE: u16 = 1;
}

pub mod wl_subsurface {
    pub const DESTROY: u16 = 0;

    pub const SET_POSITION: u16 = 1;

    pub const PLACE_ABOVE: u16 = 2;

    pub const PLACE_BELOW: u16 = 3;

    pub const SET_SYNC: u16 = 4;

    pub const SET_DESYNC: u16 = 5;
}

pub mod wl_shell {
    pub const GET_SHELL_SURFACE: u16 = 0;
}

pub mod wl_shell_surface {
    pub const PONG: u16 = 0;

    pub const MOVE: u16 = 1;

    pub const RESIZE: u16 = 2;

    pub const SET_TOPLEVEL: u16 = 3;

    pub const SET_TRANSIENT: u16 = 4;

    pub const SET_FULLSCREEN: u16 = 5;

    pub const SET_POPUP: u16 = 6;

    pub const SET_MAXIMIZED: u16 = 7;

    pub const SET_TITLE: u16 = 8;

    pub const SET_CLASS: u16 = 9;
}

pub mod wl_fixes {
    pub const DESTROY: u16 = 0;

    pub const DESTROY_REGISTRY: u16 = 1;
}
