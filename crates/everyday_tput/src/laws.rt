//! Laws of the definitions on which the contracts of this crate depend. They compute nothing.
ghost use Rattle.everyday_tput.specs.Answers.{FullTarget};
ghost use Rattle.everyday_tput.specs.Laws.{TablesNeedNoExtension};
ghost use Rattle.everyday_tput.specs.Running.{OneAfterAnother};
ghost use Rattle.everyday_tput.specs.declared.running.Until.{Until};

/// A name that the tables know takes the same words, and a command of it has the same answer, whatever
/// user-defined capabilities the entry has; but `clear` may ask for one.
pub fn tables_need_no_extension()
    ensures { TablesNeedNoExtension }
{}

/// The output of commands is that of the first ones and then that of the others, unless the first
/// ones stop.
pub fn one_after_another()
    ensures { (t : FullTarget) (until : Until) → OneAfterAnother t until }
{}
