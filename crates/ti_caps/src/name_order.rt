//! The capabilities of each kind in the order of the bytes of their names.
ghost use Rattle.std.specs.Prelude.{◌≡◌, map, slice_get};
ghost use Rattle.ti_caps.specs.Tables.{capability};
ghost use Rattle.ti_caps.specs.NameOrder.{EachKindIsInOrder, OrdersByNameAreOne, in_name_order};

use crate::capability::{Cap, Kind};
use crate::tables::{FLAG_COUNT, NUMBER_COUNT, TEXT_COUNT};

// The indexes of the booleans, by name.
static FLAGS_BY_NAME: [u16; FLAG_COUNT] = [
    40, 41, 37, 39, 38, 42, 43, 1, 28, 0, 27, 23, 35, 31, 11, 32, 12, 5, 16, 6, 7, 29, 9, 18, 10,
    8, 36, 22, 13, 14, 26, 25, 24, 21, 15, 34, 19, 4, 3, 30, 20, 2, 17, 33,
];

// The indexes of the numbers, by name.
static NUMBERS_BY_NAME: [u16; NUMBER_COUNT] = [
    36, 34, 35, 37, 38, 33, 31, 32, 30, 16, 13, 0, 28, 1, 9, 2, 3, 10, 11, 19, 21, 20, 22, 15, 8,
    23, 24, 26, 25, 27, 14, 5, 18, 17, 6, 29, 12, 7, 4,
];

// The indexes of the strings, by name.
static TEXTS_BY_NAME: [u16; TEXT_COUNT] = [
    402, 400, 401, 403, 410, 407, 408, 405, 404, 406, 409, 397, 394, 398, 399, 396, 395, 146, 1,
    372, 371, 370, 26, 27, 413, 0, 306, 13, 5, 9, 16, 373, 304, 2, 363, 354, 3, 111, 14, 107, 11,
    112, 17, 10, 114, 19, 307, 20, 277, 105, 21, 275, 374, 308, 362, 280, 30, 378, 106, 22, 352,
    23, 37, 7, 386, 6, 269, 387, 388, 155, 375, 389, 390, 391, 46, 45, 273, 47, 358, 24, 12, 284,
    8, 134, 132, 137, 279, 108, 52, 51, 110, 53, 129, 109, 299, 300, 32, 54, 138, 48, 49, 50, 186,
    187, 188, 189, 190, 191, 192, 194, 195, 196, 197, 198, 199, 200, 201, 203, 202, 204, 205, 207,
    206, 208, 211, 210, 209, 212, 213, 214, 139, 140, 141, 158, 55, 142, 143, 159, 148, 160, 57,
    161, 162, 163, 58, 79, 61, 83, 87, 59, 60, 64, 63, 164, 165, 166, 65, 66, 67, 216, 217, 218,
    219, 220, 221, 222, 223, 224, 68, 225, 226, 227, 228, 229, 230, 231, 232, 233, 234, 69, 235,
    236, 237, 238, 239, 240, 241, 242, 243, 244, 70, 245, 246, 247, 248, 249, 250, 251, 252, 253,
    254, 71, 255, 256, 257, 258, 259, 260, 261, 262, 263, 264, 72, 265, 266, 267, 268, 73, 74, 75,
    167, 168, 76, 86, 77, 78, 84, 80, 355, 171, 169, 170, 81, 172, 173, 174, 82, 176, 175, 177,
    178, 182, 179, 85, 62, 180, 181, 183, 193, 184, 56, 185, 90, 91, 92, 93, 94, 95, 96, 97, 98,
    99, 100, 18, 305, 118, 119, 120, 144, 336, 330, 335, 329, 337, 331, 338, 333, 411, 412, 270,
    328, 356, 15, 332, 103, 298, 297, 104, 285, 383, 115, 116, 117, 361, 147, 334, 33, 283, 281,
    348, 126, 349, 121, 357, 34, 125, 215, 130, 113, 321, 322, 38, 152, 276, 40, 41, 323, 42, 88,
    157, 101, 145, 380, 382, 43, 44, 150, 122, 123, 124, 324, 325, 326, 327, 320, 364, 365, 366,
    367, 346, 128, 385, 384, 274, 301, 339, 347, 310, 360, 359, 303, 376, 302, 131, 39, 392, 311,
    393, 377, 312, 25, 151, 28, 29, 340, 341, 271, 342, 368, 272, 343, 344, 369, 345, 313, 31, 89,
    156, 102, 379, 381, 35, 36, 149, 314, 315, 316, 317, 318, 350, 319, 351, 309, 4, 282, 135, 287,
    288, 289, 290, 291, 292, 293, 294, 295, 296, 136, 127, 286, 133, 278, 154, 153, 353,
];

// The indexes of the capabilities of a kind, by name.
#[inline]
fn indexes_by_name(kind: Kind) -> &'static [u16]
    ensures { map (capability kind) result.now ≡ in_name_order kind }
{
    match kind {
        Kind::Flag => &FLAGS_BY_NAME,
        Kind::Number => &NUMBERS_BY_NAME,
        Kind::Text => &TEXTS_BY_NAME,
    }
}

/// The capability at a place, counted from 0, in the order of the bytes of the names of a kind;
/// `None` exactly if the kind does not have that many.
#[inline]
pub fn by_name(kind: Kind, place: usize) -> Option<Cap>
    ensures { result ≡ slice_get (in_name_order kind) place }
{
    let index = *indexes_by_name(kind).get(place)?;
    Cap::at(kind, index as usize)
}
