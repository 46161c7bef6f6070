//! Laws of the definitions on which the contracts of this crate depend. They compute nothing.
ghost use Rattle.tools_directories.specs.Directories.{EachIsListedOnce};
ghost use Rattle.tools_directories.specs.Finding.{FindsTheFirst, LettersComeFirst};
ghost use Rattle.tools_directories.specs.Reading.{FilesHaveOneReading, TablesAreReadAlike};

/// No directory is listed twice, and each that is named is listed.
pub fn each_is_listed_once()
    ensures { EachIsListedOnce }
{}

/// A search of which no read failed finds the first file that there is.
pub fn finds_the_first()
    ensures { FindsTheFirst }
{}

/// A file that is below a directory named by a letter is found before all others.
pub fn letters_come_first()
    ensures { LettersComeFirst }
{}

/// The bytes of a file determine what [`read`](crate::read) returns.
pub fn files_have_one_reading()
    ensures { FilesHaveOneReading }
{
    ti_layout::laws::one_reading();
}

/// A file that [`read`](crate::read) takes is taken by `tools_devices`' `entry`, with the same names
/// and the same capabilities of the tables.
pub fn tables_are_read_alike()
    ensures { TablesAreReadAlike }
{
    ti_layout::laws::one_reading();
}
