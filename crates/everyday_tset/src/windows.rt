//! The size of the window.
ghost use Rattle.std.specs.Prelude.{◌≡◌};
ghost use Rattle.everyday_tset.specs.Windows.{can_be_set, columns_of, window_to_set};

// The first number of lines or columns that is too great for a window.
const TOO_MANY: u32 = 32768;

/// How large a window is; 0 and 0 if it has no size.
#[derive(Clone, Copy, Debug, PartialEq, Eq)]
pub struct Window {
    /// How many lines it has.
    pub lines: u32,
    /// How many columns it has.
    pub columns: u32,
}

// Whether a number of lines or columns is one that a window can have.
fn can_be_set(number: u32) -> bool
    ensures { result ≡ can_be_set number }
{
    0 < number && number < TOO_MANY
}

impl Window {
    /// The size that is set, given the one that is wanted: only a window without a size gets one.
    pub fn to_set(&self, wanted: &Window) -> Option<Window>
        ensures { result ≡ window_to_set self.now wanted.now }
    {
        let has_none = self.lines == 0 && self.columns == 0;
        if has_none && can_be_set(wanted.lines) && can_be_set(wanted.columns) {
            return Some(*wanted);
        }
        None
    }

    /// How many columns strings are made for: those of the window if it has a size, else the others.
    pub fn columns_or(&self, columns: u32) -> u32
        ensures { result ≡ columns_of self.now columns }
    {
        if 0 < self.lines && 0 < self.columns {
            self.columns
        } else {
            columns
        }
    }
}
