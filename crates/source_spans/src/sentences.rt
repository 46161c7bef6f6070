//! The sentence of each error and warning: what is wrong, and how to fix it.
ghost use Rattle.std.specs.Prelude.{◌≡◌};
ghost use Rattle.source_spans.specs.Sentences as spec;

use ti_source::Code;

/// What is wrong, and how to fix it, where installed entries are not searched.
pub fn sentence(code: Code) -> &'static str
    ensures { result.now ≡ spec.sentence code }
{
    match code {
        Code::BadHeader =>
            "The line of names is invalid. Correct the name that is empty or has a space, a slash or a byte that is not printable ASCII.",
        Code::NamesTooLong =>
            "The names up to the first comma are over 127 bytes. Shorten them, or add the missing comma.",
        Code::BadNumber =>
            "Invalid number. Write it in decimal, in octal after 0, or in hexadecimal after 0x.",
        Code::NumberTooLarge => "The number is over 2147483647. Write a smaller one.",
        Code::BadString =>
            "Invalid string. Write octal escapes up to \\377, and \\^ for a literal caret.",
        Code::MissingUse =>
            "No block has this name. Correct it, or add the block: installed entries are not searched.",
        Code::Circular => "This use leads back to its own block. Remove one use= of the cycle.",
        Code::Unresolved =>
            "The block with this name has an error, or uses one that does. Correct that block.",
        Code::TooLarge =>
            "The entry is over 4096 bytes, or over 32768 with a number over 32767. Cancel capabilities that are not needed.",
        Code::UnknownCapability =>
            "Unknown capability, so it is ignored. Names are case-sensitive, and a comma in a string is written \\,.",
        Code::WrongKind =>
            "The capability is of another kind, so it is ignored. Booleans have no sign, numbers have #, and strings have =.",
        Code::UnknownEscape => "Unknown escape sequence. Remove the backslash, or double it.",
        Code::DuplicateName => "An earlier block has this name. Remove it from one of the two.",
    }
}

/// The sentence of a source with a block that is too long.
pub const BLOCK_TOO_LONG: &str =
    "The block is over 1048576 bytes, so the source is not read. Shorten it.";

/// The sentence of a source with too many blocks.
pub const TOO_MANY_BLOCKS: &str = "The source has over 65535 blocks, so it is not read. Split it.";
