//! A short sentence for each capability, in our own words, with the name of its variable in X/Open
//! Curses and, for a string, the parameters that it takes.
//!
//! The rows have the order of the compiled entry, as terminfo(5) gives it: a capability is
//! described by the row of its kind at its index. They are data: `tests/editor/capabilities.marks`
//! has each of them beside the name of its capability. Those of the texts are in six parts, since
//! the proof of a function grows faster than the table that it reads.
ghost use Rattle.std.specs.Prelude.{◌≡◌, ◌<◌, Some, length, map, slice_get};
ghost use Rattle.ti_caps.specs.Tables.{count_of};
ghost use Rattle.ti_caps.specs.declared.capability.Kind.TheVariants.{Text};
ghost use Rattle.source_descriptions.specs.Descriptions.{described, description_seen, rows, told};

use ti_caps::{Cap, FLAG_COUNT, Kind, NUMBER_COUNT, TEXT_COUNT};

/// What is said about a capability.
#[derive(Clone, Copy, PartialEq, Eq, Debug)]
pub struct Description {
    /// The name of its variable in X/Open Curses, such as `cursor_address` for `cup`.
    pub variable: &'static str,
    /// What it says of the terminal, or what the terminal does on it: at most 70 bytes of ASCII,
    /// with no full stop.
    pub sentence: &'static str,
    /// The parameters of a string in their order, with `, ` between them; empty if it takes none.
    pub parameters: &'static str,
}

// A row: the variable, the sentence and the parameters.
type Row = (&'static str, &'static str, &'static str);

// How many rows a part of the texts has.
const PART: usize = TEXT_COUNT / 6;

// The rows of a list: each has the variable, the sentence and, if it takes any, the parameters.
macro_rules! descriptions {
    ($($variable:literal, $sentence:literal $(, $parameters:literal)?;)*) => {
        [$(($variable, $sentence, concat!("" $(, $parameters)?))),*]
    };
}

/// What is said about a capability: the row of its kind at its index.
pub fn description_of(cap: Cap) -> Description
    ensures { description_seen result ≡ described cap }
{
    match cap.kind() {
        Kind::Flag => row_at(&FLAGS, cap.index()),
        Kind::Number => row_at(&NUMBERS, cap.index()),
        Kind::Text => text_row(cap.index()),
    }
}

// What the row at a place of a list says.
fn row_at(rows: &'static [Row], place: usize) -> Description
    requires { place < length rows.now }
    ensures { slice_get (map (λ r. told r.0.now r.1.now r.2.now) rows.now) place ≡ Some (description_seen result) }
{
    let (variable, sentence, parameters) = rows[place];
    Description {
        variable,
        sentence,
        parameters,
    }
}

// What the row of a text says.
fn text_row(index: usize) -> Description
    requires { index < count_of Text }
    ensures { slice_get (rows Text) index ≡ Some (description_seen result) }
{
    let place = index % PART;
    match index / PART {
        0 => row_at(&PART_1, place),
        1 => row_at(&PART_2, place),
        2 => row_at(&PART_3, place),
        3 => row_at(&PART_4, place),
        4 => row_at(&PART_5, place),
        _ => row_at(&PART_6, place),
    }
}

// The descriptions of the flags, by index.
static FLAGS: [Row; FLAG_COUNT] = descriptions! {
    "auto_left_margin", "Moving left from the first column leads to the end of the line above";
    "auto_right_margin", "Lines wrap at the right margin";
    "no_esc_ctlc", "Function keys F1 and F2 serve as Escape and Ctrl-C (Beehive)";
    "ceol_standout_glitch", "Standout stays when it is written over; only el removes it";
    "eat_newline_glitch", "A newline straight after a wrap at the right margin is ignored";
    "erase_overstrike", "A space erases characters that were written on top of each other";
    "generic_type", "The entry is for a kind of line, not for one known terminal";
    "hard_copy", "The terminal prints on paper";
    "has_meta_key", "The keyboard has a meta key, which sets the eighth bit";
    "has_status_line", "The terminal has a status line apart from its screen";
    "insert_null_glitch", "Insert mode distinguishes cells never written from written spaces";
    "memory_above", "Lines that leave the screen at the top may be kept in memory";
    "memory_below", "Lines that leave the screen at the bottom may be kept in memory";
    "move_insert_mode", "The cursor may be moved while insert mode is on";
    "move_standout_mode", "The cursor may be moved while standout mode is on";
    "over_strike", "A character written over another leaves both visible";
    "status_line_esc_ok", "Escape sequences work on the status line too";
    "dest_tabs_magic_smso", "Tabs blank what they pass, and a standout mark cannot be written over";
    "tilde_glitch", "The terminal cannot show a tilde (Hazeltine)";
    "transparent_underline", "An underscore written over a character underlines it";
    "xon_xoff", "The terminal controls the flow of data by XON and XOFF";
    "needs_xon_xoff", "The terminal needs XON and XOFF, since padding does not help";
    "prtr_silent", "What goes to the printer is not shown on the screen";
    "hard_cursor", "The cursor is hard to make out";
    "non_rev_rmcup", "After rmcup, smcup does not bring the earlier screen back";
    "no_pad_char", "The terminal has no character for padding";
    "non_dest_scroll_region", "Text that leaves the scrolling region is kept and can come back";
    "can_change", "The colors can be redefined";
    "back_color_erase", "Erasing fills with the current background color";
    "hue_lightness_saturation", "Colors are given by hue, lightness and saturation";
    "col_addr_glitch", "The capabilities hpa and mhpa move only to the right";
    "cr_cancels_micro_mode", "A carriage return ends micro mode";
    "has_print_wheel", "The character set is changed by hand, with the print wheel";
    "row_addr_glitch", "The capabilities vpa and mvpa move only downward";
    "semi_auto_right_margin", "Printing in the last column returns the carriage";
    "cpi_changes_res", "A change of the characters per inch changes the resolution too";
    "lpi_changes_res", "A change of the lines per inch changes the resolution too";
    "backspaces_with_bs", "Obsolete: in termcap, Ctrl-H moves the cursor left";
    "crt_no_scrolling", "Obsolete: in termcap, the screen does not scroll";
    "no_correctly_working_cr", "Obsolete: in termcap, no carriage return works as it should";
    "gnu_has_meta_key", "Obsolete: in GNU termcap, the keyboard has a meta key";
    "linefeed_is_newline", "Obsolete: in termcap, a newline moves the cursor down";
    "has_hardware_tabs", "Obsolete: in termcap, Ctrl-I moves to tab stops eight columns apart";
    "return_does_clr_eol", "Obsolete: in termcap, a carriage return clears the line";
};

// The descriptions of the numbers, by index.
static NUMBERS: [Row; NUMBER_COUNT] = descriptions! {
    "columns", "Columns on the screen";
    "init_tabs", "Columns between tab stops when the terminal is switched on";
    "lines", "Lines on the screen or page";
    "lines_of_memory", "Lines that the memory holds, or 0 if their number varies";
    "magic_cookie_glitch", "Cells that turning standout mode on or off takes up";
    "padding_baud_rate", "The lowest speed, in baud, that needs padding";
    "virtual_terminal", "The number of the terminal in Unix's virtual terminal protocol";
    "width_status_line", "Columns of the status line";
    "num_labels", "Soft labels on the screen";
    "label_height", "Rows of a soft label";
    "label_width", "Columns of a soft label";
    "max_attributes", "The most attributes that can be shown together";
    "maximum_windows", "The most windows that can be defined";
    "max_colors", "The most colors on the screen at a time";
    "max_pairs", "The most color pairs on the screen at a time";
    "no_color_video", "A mask of the attributes that cannot be used with colors";
    "buffer_capacity", "Bytes that the printer collects before it prints";
    "dot_vert_spacing", "Pins per inch from top to bottom";
    "dot_horz_spacing", "Dots per inch from left to right";
    "max_micro_address", "The largest position that a micro address can give";
    "max_micro_jump", "The longest move that a micro motion with a count can make";
    "micro_col_size", "The size of a step to the side in micro mode";
    "micro_line_size", "The size of a step up or down in micro mode";
    "number_of_pins", "Pins in the print head";
    "output_res_char", "Units of horizontal resolution in a character";
    "output_res_line", "Units of vertical resolution in a line";
    "output_res_horz_inch", "Units of horizontal resolution in an inch";
    "output_res_vert_inch", "Units of vertical resolution in an inch";
    "print_rate", "Characters that are printed in a second";
    "wide_char_size", "The size of a step to the side in double-wide mode";
    "buttons", "Buttons on the mouse";
    "bit_image_entwining", "Passes of the print head for each row of a bit image";
    "bit_image_type", "The kind of device that shows bit images, as a number";
    "magic_cookie_glitch_ul",
        "Obsolete: termcap's cells that turning underlining on or off takes up";
    "carriage_return_delay", "Obsolete: termcap's delay in milliseconds after a carriage return";
    "new_line_delay", "Obsolete: termcap's delay in milliseconds after a newline";
    "backspace_delay", "Obsolete: termcap's delay in milliseconds after a backspace";
    "horizontal_tab_delay", "Obsolete: termcap's delay in milliseconds after a tab";
    "number_of_function_keys", "Obsolete: termcap's number of function keys";
};

// The descriptions of the texts from `cbt` to `kf2`.
static PART_1: [Row; PART] = descriptions! {
    "back_tab", "Move the cursor back to the tab stop before it";
    "bell", "Ring the bell";
    "carriage_return", "Move the cursor to the first column of its line";
    "change_scroll_region", "Let only the lines from one row to another scroll",
        "first row, last row";
    "clear_all_tabs", "Clear every tab stop";
    "clear_screen", "Clear the whole screen and move the cursor to its top left corner";
    "clr_eol", "Clear from the cursor to the end of the line";
    "clr_eos", "Clear from the cursor to the end of the screen";
    "column_address", "Move the cursor to a column of its row", "column";
    "command_character", "Give the command character of this entry, which a user may replace";
    "cursor_address", "Move the cursor to a row and column", "row, column";
    "cursor_down", "Move the cursor down one line";
    "cursor_home", "Move the cursor to the top left corner of the screen";
    "cursor_invisible", "Hide the cursor";
    "cursor_left", "Move the cursor left one column";
    "cursor_mem_address", "Move the cursor to a row and column of the memory", "row, column";
    "cursor_normal", "Show the cursor as usual, after civis or cvvis";
    "cursor_right", "Move the cursor right one column and leave the text as it is";
    "cursor_to_ll", "Move the cursor to the bottom left corner of the screen";
    "cursor_up", "Move the cursor up one line";
    "cursor_visible", "Make the cursor easier to see than usual";
    "delete_character", "Delete the character at the cursor";
    "delete_line", "Delete the line that the cursor is on";
    "dis_status_line", "Turn the status line off";
    "down_half_line", "Move down half a line";
    "enter_alt_charset_mode", "Turn the alternate character set on";
    "enter_blink_mode", "Turn blinking text on";
    "enter_bold_mode", "Turn bold text on";
    "enter_ca_mode", "Prepare the screen for a program that moves the cursor";
    "enter_delete_mode", "Turn delete mode on";
    "enter_dim_mode", "Turn dim text on";
    "enter_insert_mode", "Turn insert mode on";
    "enter_secure_mode", "Turn invisible text on";
    "enter_protected_mode", "Turn protected text on, which is safe from erasing";
    "enter_reverse_mode", "Turn reverse video on";
    "enter_standout_mode", "Turn standout mode on";
    "enter_underline_mode", "Turn underlining on";
    "erase_chars", "Erase some characters and leave the cursor in place", "count";
    "exit_alt_charset_mode", "Turn the alternate character set off";
    "exit_attribute_mode", "Turn every attribute off";
    "exit_ca_mode", "Restore the screen after a program that moves the cursor";
    "exit_delete_mode", "Turn delete mode off";
    "exit_insert_mode", "Turn insert mode off";
    "exit_standout_mode", "Turn standout mode off";
    "exit_underline_mode", "Turn underlining off";
    "flash_screen", "Flash the screen in place of the bell";
    "form_feed", "Eject the page of a printing terminal";
    "from_status_line", "Move the cursor from the status line to where it was before";
    "init_1string", "Set the terminal up, by the first of three strings";
    "init_2string", "Set the terminal up, by the second of three strings";
    "init_3string", "Set the terminal up, by the third of three strings";
    "init_file", "Name a file that is sent to set the terminal up";
    "insert_character", "Insert a blank character at the cursor";
    "insert_line", "Insert a blank line where the cursor is";
    "insert_padding", "Wait after each character that is inserted";
    "key_backspace", "The sequence that the Backspace key sends";
    "key_catab", "The sequence that the clear-all-tabs key sends";
    "key_clear", "The sequence that the Clear or Erase key sends";
    "key_ctab", "The sequence that the clear-tab key sends";
    "key_dc", "The sequence that the delete-character key sends";
    "key_dl", "The sequence that the delete-line key sends";
    "key_down", "The sequence that the down arrow key sends";
    "key_eic", "The sequence that the exit-insert-mode key sends";
    "key_eol", "The sequence that the clear-to-end-of-line key sends";
    "key_eos", "The sequence that the clear-to-end-of-screen key sends";
    "key_f0", "The sequence that function key F0 sends";
    "key_f1", "The sequence that function key F1 sends";
    "key_f10", "The sequence that function key F10 sends";
    "key_f2", "The sequence that function key F2 sends";
};

// The descriptions of the texts from `kf3` to `hu`.
static PART_2: [Row; PART] = descriptions! {
    "key_f3", "The sequence that function key F3 sends";
    "key_f4", "The sequence that function key F4 sends";
    "key_f5", "The sequence that function key F5 sends";
    "key_f6", "The sequence that function key F6 sends";
    "key_f7", "The sequence that function key F7 sends";
    "key_f8", "The sequence that function key F8 sends";
    "key_f9", "The sequence that function key F9 sends";
    "key_home", "The sequence that the Home key sends";
    "key_ic", "The sequence that the insert-character key sends";
    "key_il", "The sequence that the insert-line key sends";
    "key_left", "The sequence that the left arrow key sends";
    "key_ll", "The sequence that the Home Down key (lower left corner) sends";
    "key_npage", "The sequence that the Next Page key sends";
    "key_ppage", "The sequence that the Previous Page key sends";
    "key_right", "The sequence that the right arrow key sends";
    "key_sf", "The sequence that the scroll-forward key sends";
    "key_sr", "The sequence that the scroll-backward key sends";
    "key_stab", "The sequence that the set-tab key sends";
    "key_up", "The sequence that the up arrow key sends";
    "keypad_local", "Leave the mode in which the keypad sends codes of its own";
    "keypad_xmit", "Enter the mode in which the keypad sends codes of its own";
    "lab_f0", "Give the label of function key F0, if it is not F0";
    "lab_f1", "Give the label of function key F1, if it is not F1";
    "lab_f10", "Give the label of function key F10, if it is not F10";
    "lab_f2", "Give the label of function key F2, if it is not F2";
    "lab_f3", "Give the label of function key F3, if it is not F3";
    "lab_f4", "Give the label of function key F4, if it is not F4";
    "lab_f5", "Give the label of function key F5, if it is not F5";
    "lab_f6", "Give the label of function key F6, if it is not F6";
    "lab_f7", "Give the label of function key F7, if it is not F7";
    "lab_f8", "Give the label of function key F8, if it is not F8";
    "lab_f9", "Give the label of function key F9, if it is not F9";
    "meta_off", "Turn meta mode off";
    "meta_on", "Turn meta mode on, in which the eighth bit is sent";
    "newline", "Move the cursor to the first column of the next line";
    "pad_char", "Give the padding character, if it is not NUL";
    "parm_dch", "Delete some characters at the cursor", "count";
    "parm_delete_line", "Delete some lines from that of the cursor on", "count";
    "parm_down_cursor", "Move the cursor down some lines", "count";
    "parm_ich", "Insert some blank characters at the cursor", "count";
    "parm_index", "Scroll the text up some lines", "count";
    "parm_insert_line", "Insert some blank lines where the cursor is", "count";
    "parm_left_cursor", "Move the cursor left some columns", "count";
    "parm_right_cursor", "Move the cursor right some columns", "count";
    "parm_rindex", "Scroll the text down some lines", "count";
    "parm_up_cursor", "Move the cursor up some lines", "count";
    "pkey_key", "Program a function key to act as if the user typed a text", "key, text";
    "pkey_local", "Program a function key to have the terminal carry out a text", "key, text";
    "pkey_xmit", "Program a function key to send a text to the computer", "key, text";
    "print_screen", "Print what the screen shows";
    "prtr_off", "Turn the printer off";
    "prtr_on", "Turn the printer on";
    "repeat_char", "Write a character a number of times", "character, count";
    "reset_1string", "Reset the terminal, by the first of three strings";
    "reset_2string", "Reset the terminal, by the second of three strings";
    "reset_3string", "Reset the terminal, by the third of three strings";
    "reset_file", "Name a file that is sent to reset the terminal";
    "restore_cursor", "Move the cursor back to where sc saved it";
    "row_address", "Move the cursor to a row of its column", "row";
    "save_cursor", "Save the position of the cursor for rc";
    "scroll_forward", "Scroll the text up one line";
    "scroll_reverse", "Scroll the text down one line";
    "set_attributes", "Set nine attributes at once, each on or off",
        "standout, underline, reverse, blink, dim, bold, invisible, protected, alternate set";
    "set_tab", "Set a tab stop at the cursor's column in every row";
    "set_window", "Use some lines and columns of the memory as the window",
        "first row, last row, first column, last column";
    "tab", "Move the cursor to the next tab stop";
    "to_status_line", "Move the cursor to a column of the status line", "column";
    "underline_char", "Underline the character at the cursor and move one column right";
    "up_half_line", "Move up half a line";
};

// The descriptions of the texts from `iprog` to `kPRV`.
static PART_3: [Row; PART] = descriptions! {
    "init_prog", "Name a program that is run to set the terminal up";
    "key_a1", "The sequence that the upper left key of the keypad sends";
    "key_a3", "The sequence that the upper right key of the keypad sends";
    "key_b2", "The sequence that the middle key of the keypad sends";
    "key_c1", "The sequence that the lower left key of the keypad sends";
    "key_c3", "The sequence that the lower right key of the keypad sends";
    "prtr_non", "Turn the printer on for some bytes", "count";
    "char_padding", "Wait after each character that is written outside insert mode";
    "acs_chars", "Pair the VT100's line drawing characters with the terminal's own";
    "plab_norm", "Set what a soft label shows", "label, text";
    "key_btab", "The sequence that the back-tab key sends";
    "enter_xon_mode", "Turn flow control by XON and XOFF on";
    "exit_xon_mode", "Turn flow control by XON and XOFF off";
    "enter_am_mode", "Turn wrapping at the right margin on";
    "exit_am_mode", "Turn wrapping at the right margin off";
    "xon_character", "Give the character that serves as XON";
    "xoff_character", "Give the character that serves as XOFF";
    "ena_acs", "Make the alternate character set ready for smacs";
    "label_on", "Show the soft labels";
    "label_off", "Hide the soft labels";
    "key_beg", "The sequence that the Begin key sends";
    "key_cancel", "The sequence that the Cancel key sends";
    "key_close", "The sequence that the Close key sends";
    "key_command", "The sequence that the Command key sends";
    "key_copy", "The sequence that the Copy key sends";
    "key_create", "The sequence that the Create key sends";
    "key_end", "The sequence that the End key sends";
    "key_enter", "The sequence that the Enter or Send key sends";
    "key_exit", "The sequence that the Exit key sends";
    "key_find", "The sequence that the Find key sends";
    "key_help", "The sequence that the Help key sends";
    "key_mark", "The sequence that the Mark key sends";
    "key_message", "The sequence that the Message key sends";
    "key_move", "The sequence that the Move key sends";
    "key_next", "The sequence that the Next key sends";
    "key_open", "The sequence that the Open key sends";
    "key_options", "The sequence that the Options key sends";
    "key_previous", "The sequence that the Previous key sends";
    "key_print", "The sequence that the Print key sends";
    "key_redo", "The sequence that the Redo key sends";
    "key_reference", "The sequence that the Reference key sends";
    "key_refresh", "The sequence that the Refresh key sends";
    "key_replace", "The sequence that the Replace key sends";
    "key_restart", "The sequence that the Restart key sends";
    "key_resume", "The sequence that the Resume key sends";
    "key_save", "The sequence that the Save key sends";
    "key_suspend", "The sequence that the Suspend key sends";
    "key_undo", "The sequence that the Undo key sends";
    "key_sbeg", "The sequence that Shift with the Begin key sends";
    "key_scancel", "The sequence that Shift with the Cancel key sends";
    "key_scommand", "The sequence that Shift with the Command key sends";
    "key_scopy", "The sequence that Shift with the Copy key sends";
    "key_screate", "The sequence that Shift with the Create key sends";
    "key_sdc", "The sequence that Shift with the delete-character key sends";
    "key_sdl", "The sequence that Shift with the delete-line key sends";
    "key_select", "The sequence that the Select key sends";
    "key_send", "The sequence that Shift with the End key sends";
    "key_seol", "The sequence that Shift with the clear-to-end-of-line key sends";
    "key_sexit", "The sequence that Shift with the Exit key sends";
    "key_sfind", "The sequence that Shift with the Find key sends";
    "key_shelp", "The sequence that Shift with the Help key sends";
    "key_shome", "The sequence that Shift with the Home key sends";
    "key_sic", "The sequence that Shift with the insert-character key sends";
    "key_sleft", "The sequence that Shift with the left arrow key sends";
    "key_smessage", "The sequence that Shift with the Message key sends";
    "key_smove", "The sequence that Shift with the Move key sends";
    "key_snext", "The sequence that Shift with the Next key sends";
    "key_soptions", "The sequence that Shift with the Options key sends";
    "key_sprevious", "The sequence that Shift with the Previous key sends";
};

// The descriptions of the texts from `kPRT` to `dclk`.
static PART_4: [Row; PART] = descriptions! {
    "key_sprint", "The sequence that Shift with the Print key sends";
    "key_sredo", "The sequence that Shift with the Redo key sends";
    "key_sreplace", "The sequence that Shift with the Replace key sends";
    "key_sright", "The sequence that Shift with the right arrow key sends";
    "key_srsume", "The sequence that Shift with the Resume key sends";
    "key_ssave", "The sequence that Shift with the Save key sends";
    "key_ssuspend", "The sequence that Shift with the Suspend key sends";
    "key_sundo", "The sequence that Shift with the Undo key sends";
    "req_for_input", "Ask for the next character of input, on a pseudo-terminal";
    "key_f11", "The sequence that function key F11 sends";
    "key_f12", "The sequence that function key F12 sends";
    "key_f13", "The sequence that function key F13 sends";
    "key_f14", "The sequence that function key F14 sends";
    "key_f15", "The sequence that function key F15 sends";
    "key_f16", "The sequence that function key F16 sends";
    "key_f17", "The sequence that function key F17 sends";
    "key_f18", "The sequence that function key F18 sends";
    "key_f19", "The sequence that function key F19 sends";
    "key_f20", "The sequence that function key F20 sends";
    "key_f21", "The sequence that function key F21 sends";
    "key_f22", "The sequence that function key F22 sends";
    "key_f23", "The sequence that function key F23 sends";
    "key_f24", "The sequence that function key F24 sends";
    "key_f25", "The sequence that function key F25 sends";
    "key_f26", "The sequence that function key F26 sends";
    "key_f27", "The sequence that function key F27 sends";
    "key_f28", "The sequence that function key F28 sends";
    "key_f29", "The sequence that function key F29 sends";
    "key_f30", "The sequence that function key F30 sends";
    "key_f31", "The sequence that function key F31 sends";
    "key_f32", "The sequence that function key F32 sends";
    "key_f33", "The sequence that function key F33 sends";
    "key_f34", "The sequence that function key F34 sends";
    "key_f35", "The sequence that function key F35 sends";
    "key_f36", "The sequence that function key F36 sends";
    "key_f37", "The sequence that function key F37 sends";
    "key_f38", "The sequence that function key F38 sends";
    "key_f39", "The sequence that function key F39 sends";
    "key_f40", "The sequence that function key F40 sends";
    "key_f41", "The sequence that function key F41 sends";
    "key_f42", "The sequence that function key F42 sends";
    "key_f43", "The sequence that function key F43 sends";
    "key_f44", "The sequence that function key F44 sends";
    "key_f45", "The sequence that function key F45 sends";
    "key_f46", "The sequence that function key F46 sends";
    "key_f47", "The sequence that function key F47 sends";
    "key_f48", "The sequence that function key F48 sends";
    "key_f49", "The sequence that function key F49 sends";
    "key_f50", "The sequence that function key F50 sends";
    "key_f51", "The sequence that function key F51 sends";
    "key_f52", "The sequence that function key F52 sends";
    "key_f53", "The sequence that function key F53 sends";
    "key_f54", "The sequence that function key F54 sends";
    "key_f55", "The sequence that function key F55 sends";
    "key_f56", "The sequence that function key F56 sends";
    "key_f57", "The sequence that function key F57 sends";
    "key_f58", "The sequence that function key F58 sends";
    "key_f59", "The sequence that function key F59 sends";
    "key_f60", "The sequence that function key F60 sends";
    "key_f61", "The sequence that function key F61 sends";
    "key_f62", "The sequence that function key F62 sends";
    "key_f63", "The sequence that function key F63 sends";
    "clr_bol", "Clear from the start of the line to the cursor";
    "clear_margins", "Clear the left and right margins that were set";
    "set_left_margin", "Make the current column the left margin";
    "set_right_margin", "Make the current column the right margin";
    "label_format", "Give the format of the soft labels";
    "set_clock", "Set the clock to a time", "hours, minutes, seconds";
    "display_clock", "Show the clock";
};

// The descriptions of the texts from `rmclk` to `smgt`.
static PART_5: [Row; PART] = descriptions! {
    "remove_clock", "Hide the clock";
    "create_window", "Define a window by two of its corners",
        "window, first row, first column, last row, last column";
    "goto_window", "Make a window the current one", "window";
    "hangup", "Hang up the telephone";
    "dial_phone", "Dial a telephone number", "number";
    "quick_dial", "Dial a telephone number without checking the progress", "number";
    "tone", "Choose dialling by tones";
    "pulse", "Choose dialling by pulses";
    "flash_hook", "Press the telephone's hook for a moment";
    "fixed_pause", "Wait two to three seconds";
    "wait_tone", "Wait until the dial tone is heard";
    "user0", "Hold string 0 of those that are the user's own";
    "user1", "Hold string 1 of those that are the user's own";
    "user2", "Hold string 2 of those that are the user's own";
    "user3", "Hold string 3 of those that are the user's own";
    "user4", "Hold string 4 of those that are the user's own";
    "user5", "Hold string 5 of those that are the user's own";
    "user6", "Hold user's string 6, by custom the form of the answer to u7";
    "user7", "Hold user's string 7, by custom a request for the cursor's position";
    "user8", "Hold user's string 8, by custom the form of the answer to u9";
    "user9", "Hold user's string 9, by custom a request for the terminal's type";
    "orig_pair", "Return to the default foreground and background colors";
    "orig_colors", "Return to the default definitions of all colors or color pairs";
    "initialize_color", "Define a color by its red, green and blue", "color, red, green, blue";
    "initialize_pair", "Define a color pair by its two colors",
        "pair, foreground red, green, blue, background red, green, blue";
    "set_color_pair", "Choose a color pair", "pair";
    "set_foreground", "Set the foreground color, numbered other than in ANSI's order", "color";
    "set_background", "Set the background color, numbered other than in ANSI's order", "color";
    "change_char_pitch", "Set how many characters fill an inch", "characters";
    "change_line_pitch", "Set how many lines fill an inch", "lines";
    "change_res_horz", "Set the horizontal resolution", "resolution";
    "change_res_vert", "Set the vertical resolution", "resolution";
    "define_char", "Define the shape of a character", "character, width in dots, descender";
    "enter_doublewide_mode", "Turn double-wide characters on";
    "enter_draft_quality", "Print in draft quality";
    "enter_italics_mode", "Turn italic text on";
    "enter_leftward_mode", "Let the carriage move to the left";
    "enter_micro_mode", "Turn micro mode on, in which motions are small steps";
    "enter_near_letter_quality", "Print in near-letter quality";
    "enter_normal_quality", "Print in normal quality";
    "enter_shadow_mode", "Turn shadow printing on";
    "enter_subscript_mode", "Turn subscripts on";
    "enter_superscript_mode", "Turn superscripts on";
    "enter_upward_mode", "Let the carriage move upward";
    "exit_doublewide_mode", "Turn double-wide characters off";
    "exit_italics_mode", "Turn italic text off";
    "exit_leftward_mode", "Let the carriage move to the right again";
    "exit_micro_mode", "Turn micro mode off";
    "exit_shadow_mode", "Turn shadow printing off";
    "exit_subscript_mode", "Turn subscripts off";
    "exit_superscript_mode", "Turn superscripts off";
    "exit_upward_mode", "Let the carriage move downward again";
    "micro_column_address", "Move to a column that is counted in micro steps", "column";
    "micro_down", "Move down one micro step";
    "micro_left", "Move left one micro step";
    "micro_right", "Move right one micro step";
    "micro_row_address", "Move to a row that is counted in micro steps", "row";
    "micro_up", "Move up one micro step";
    "order_of_pins", "Match the bits of an image's column to the pins of the print head";
    "parm_down_micro", "Move down some micro steps", "count";
    "parm_left_micro", "Move left some micro steps", "count";
    "parm_right_micro", "Move right some micro steps", "count";
    "parm_up_micro", "Move up some micro steps", "count";
    "select_char_set", "Choose a character set", "set";
    "set_bottom_margin", "Make the current line the bottom margin";
    "set_bottom_margin_parm", "Put the bottom margin at a line from the top or from the bottom",
        "row from the top, row from the bottom";
    "set_left_margin_parm", "Put the left margin at a column", "column";
    "set_right_margin_parm", "Put the right margin at a column", "column";
    "set_top_margin", "Make the current line the top margin";
};

// The descriptions of the texts from `smgtp` to `box1`.
static PART_6: [Row; PART] = descriptions! {
    "set_top_margin_parm", "Put the top margin at a line", "row";
    "start_bit_image", "Begin to print a bit image", "width in dots";
    "start_char_set_def", "Begin the definition of a character set", "set, count";
    "stop_bit_image", "End the printing of a bit image";
    "stop_char_set_def", "End the definition of a character set", "set";
    "subscript_characters", "List the characters that can be subscripts";
    "superscript_characters", "List the characters that can be superscripts";
    "these_cause_cr", "List the characters that return the carriage when they are printed";
    "zero_motion", "Print the next character without moving past it";
    "char_set_names", "Give the name of a character set", "set";
    "key_mouse", "The sequence that announces an event of the mouse";
    "mouse_info", "Report the state of the mouse";
    "req_mouse_pos", "Ask where the mouse is";
    "get_mouse", "Ask for the events of the mouse's buttons", "buttons";
    "set_a_foreground", "Set the foreground color, numbered in ANSI's order", "color";
    "set_a_background", "Set the background color, numbered in ANSI's order", "color";
    "pkey_plab", "Program a function key to type a text and to show a label", "key, text, label";
    "device_type", "Report which languages and code sets the device supports";
    "code_set_init", "Set the terminal up for several code sets";
    "set0_des_seq", "Change to code set 0, which is ASCII";
    "set1_des_seq", "Change to code set 1";
    "set2_des_seq", "Change to code set 2";
    "set3_des_seq", "Change to code set 3";
    "set_lr_margin", "Put the left and right margins at two columns", "left column, right column";
    "set_tb_margin", "Put the top and bottom margins at two lines", "top row, bottom row";
    "bit_image_repeat", "Repeat a cell of a bit image", "cell, count";
    "bit_image_newline", "Go down to the next row of a bit image";
    "bit_image_carriage_return", "Go back to the start of the same row of a bit image";
    "color_names", "Give the name of a color", "color";
    "define_bit_image_region", "Mark out a rectangle for a bit image";
    "end_bit_image_region", "End the rectangle of a bit image";
    "set_color_band", "Change to a color of the printer's ribbon", "color";
    "set_page_length", "Set the length of the page in lines", "lines";
    "display_pc_char", "Show a character of the PC's set", "character";
    "enter_pc_charset_mode", "Turn the PC's character set on";
    "exit_pc_charset_mode", "Turn the PC's character set off";
    "enter_scancode_mode", "Turn the sending of PC scan codes on";
    "exit_scancode_mode", "Turn the sending of PC scan codes off";
    "pc_term_options", "Give the options of a PC as a terminal";
    "scancode_escape", "Introduce an escape while scan codes are emulated";
    "alt_scancode_esc", "Introduce an escape while scan codes are emulated, by another way";
    "enter_horizontal_hl_mode", "Turn horizontal highlighting on";
    "enter_left_hl_mode", "Turn left highlighting on";
    "enter_low_hl_mode", "Turn low highlighting on";
    "enter_right_hl_mode", "Turn right highlighting on";
    "enter_top_hl_mode", "Turn top highlighting on";
    "enter_vertical_hl_mode", "Turn vertical highlighting on";
    "set_a_attributes", "Set six kinds of highlighting at once, each on or off",
        "horizontal, left, low, right, top, vertical";
    "set_pglen_inch", "Set the length of the page in hundredths of an inch", "length";
    "termcap_init2", "Obsolete: termcap's second string that sets the terminal up";
    "termcap_reset", "Obsolete: termcap's string that resets the terminal";
    "linefeed_if_not_lf", "Obsolete: termcap's move down, if a line feed does not do it";
    "backspace_if_not_bs", "Obsolete: termcap's move left, if a backspace does not do it";
    "other_non_function_keys",
        "Obsolete: termcap's list of capabilities that have a key of their own";
    "arrow_key_map", "Obsolete: termcap's map of the arrow keys to commands of vi";
    "acs_ulcorner", "Obsolete: GNU termcap's upper left corner of a box";
    "acs_llcorner", "Obsolete: GNU termcap's lower left corner of a box";
    "acs_urcorner", "Obsolete: GNU termcap's upper right corner of a box";
    "acs_lrcorner", "Obsolete: GNU termcap's lower right corner of a box";
    "acs_ltee", "Obsolete: GNU termcap's tee that points right";
    "acs_rtee", "Obsolete: GNU termcap's tee that points left";
    "acs_btee", "Obsolete: GNU termcap's tee that points up";
    "acs_ttee", "Obsolete: GNU termcap's tee that points down";
    "acs_hline", "Obsolete: GNU termcap's horizontal line";
    "acs_vline", "Obsolete: GNU termcap's vertical line";
    "acs_plus", "Obsolete: GNU termcap's crossing of two lines";
    "memory_lock", "Keep the lines above the cursor in place when text scrolls";
    "memory_unlock", "Let the lines that meml keeps in place scroll again";
    "box_chars_1", "List the characters that draw a box, as AIX does";
};
