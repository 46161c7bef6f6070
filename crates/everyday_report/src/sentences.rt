//! The sentence of each error and warning: that of the language server, but for a use whose name
//! nobody has, since installed entries are searched here, and for names that are too long here too.
ghost use Rattle.std.specs.Prelude.{◌≡◌};
ghost use Rattle.everyday_report.specs.Sentences as spec;

use ti_source::Code;

/// What is reported about an error or a warning of the profile. It is that of `source_spans`, but for
/// E2 and E6.
pub fn sentence(code: Code) -> &'static str
    ensures { result.now ≡ spec.sentence code }
{
    match code {
        Code::MissingUse =>
            "No block and no installed entry has this name. Correct it, or add the block.",
        Code::NamesTooLong =>
            "The names up to the first comma are over 512 bytes, or over 125 without the description, or on several lines. Shorten them, or add the missing comma.",
        _ => source_spans::sentence(code),
    }
}

/// What is reported about an invalid value of a user-defined name.
pub const BAD_USER_DEFINED: &str =
    "Invalid value of a user-defined capability, so the item is ignored. Correct the number or the string.";

/// What is reported about a source with too many user-defined names.
pub const TOO_MANY_NAMES: &str =
    "The source has over 1024 user-defined names, so it is not compiled. Split it.";
