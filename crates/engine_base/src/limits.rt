// Limits that code over pages shares. Each is the number that the definitions over pages have for
// it.
ghost use Rattle.std.specs.Prelude.{◌≡◌};
ghost use Rattle.page_model.specs.Pages.{page_bytes, null_page};
ghost use Rattle.page_model.specs.Steps.{max_pins, whole_room};
ghost use Rattle.page_model.specs.Frames.{max_group};

/// How many bytes a page has.
pub const PAGE_BYTES: usize = 16_384;

/// What stands for no page.
pub const NULL_PAGE: u32 = 0xffff_ffff;

/// How many pages a mini-transaction may pin.
pub const MAX_PINS: usize = 16;

/// How many bytes the frame of a group may have.
pub const MAX_GROUP: usize = 262_144;

/// How many bytes of writes an empty frame takes: a full one, less its head of six bytes.
pub const MAX_ROOM: u32 = MAX_GROUP as u32 - 6;

/// The numbers here are those of the definitions.
pub fn limits_are_the_models()
    ensures page { PAGE_BYTES ≡ page_bytes }
    ensures null { NULL_PAGE ≡ null_page }
    ensures pins { MAX_PINS ≡ max_pins }
    ensures group { MAX_GROUP ≡ max_group }
    ensures room { MAX_ROOM ≡ whole_room }
{}
