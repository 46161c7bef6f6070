//! Laws of the definitions on which the contracts of this crate depend. They compute nothing.
ghost use Rattle.ti_layout.specs.Laws.{ImagesAreOfValues, ImagesAreRead, ImagesInFormatsAreRead, LimitsAreOfValues};
ghost use Rattle.ti_layout.specs.Reading.{EntriesHaveOneReading};

/// Bytes are an entry in at most one way, are refused in at most one way, and never both; so the
/// bytes determine what [`View::read`](crate::View::read) returns.
pub fn one_reading()
    ensures { EntriesHaveOneReading }
{}

/// What is written is read again: an image within the limit is an entry, with its names and with
/// what was written of each capability, a cancelled value being absent.
pub fn images_are_read()
    ensures { ImagesAreRead }
{}

/// An image in a format that has room for its numbers is read again, whatever follows it.
pub fn images_in_formats_are_read()
    ensures { ImagesInFormatsAreRead }
{}

/// An image and its limit depend only on the values of the capabilities: an absent value and a
/// cancelled one are written alike.
pub fn images_are_of_values()
    ensures images { ImagesAreOfValues }
    ensures limits { LimitsAreOfValues }
{}
