//! The user-defined capabilities that are known: those of user_caps(5), screen(1) and tmux(1), and
//! of ncurses's entries.
//!
//! The rows are data: `tests/editor/user-capabilities.marks` has each of them. A key that is pressed
//! together with modifiers has a name by rule, as `kUP3` is the name of the up arrow key with Alt, and
//! `kF5` that of function key F5 with Shift.
ghost use Rattle.std.specs.Prelude.{◌≡◌, ◌++◌, map, option_map};
ghost use Rattle.std.specs.List.{find, flat_map};
ghost use Rattle.std.specs.Str.{bytes_eq};
ghost use Rattle.source_descriptions.specs.UserDescriptions.{described_rows, has_name, modified, modified_by, modified_keys, shifted, shifted_keys, user_told};

// A row: the name, the kinds that its value may have, a sentence and the parameters.
pub(crate) type UserRow = (&'static str, &'static str, &'static str, &'static str);

// A key: its name without modifiers, and what it is called.
pub(crate) type Key = (&'static str, &'static str);

// Modifiers: what a name has for them after that of the key, and their words.
pub(crate) type Modifier = (&'static str, &'static str);

// The rows of a list: each has the name, the kinds, the sentence and, if it takes any, the
// parameters.
macro_rules! user_rows {
    ($($name:literal, $kinds:literal, $sentence:literal $(, $parameters:literal)?;)*) => {
        [$(($name, $kinds, $sentence, concat!("" $(, $parameters)?))),*]
    };
}

// The row of a list that has a name.
fn row_in(rows: &'static [UserRow], name: &[u8]) -> Option<UserRow>
    ensures { option_map (λ r. user_told r.0.now r.1.now r.2.now r.3.now) result
        ≡ find (has_name name.now) (map (λ r. user_told r.0.now r.1.now r.2.now r.3.now) rows.now) }
{
    for row in rows {
        if row.0.as_bytes() == name {
            return Some(*row);
        }
    }
    None
}

/// The row of a name, if it has one of its own.
pub(crate) fn row_named(name: &[u8]) -> Option<UserRow>
    ensures { option_map (λ r. user_told r.0.now r.1.now r.2.now r.3.now) result ≡ find (has_name name.now) described_rows }
{
    match row_in(&CAPITALS, name) {
        Some(row) => Some(row),
        None => row_in(&OTHERS, name),
    }
}

// Whether a name is that of a key, and then that of modifiers.
fn is_joined(name: &[u8], key: &str, modifiers: &str) -> bool
    ensures { result ≡ bytes_eq (key.now ++ modifiers.now) name.now }
{
    match name.strip_prefix(key.as_bytes()) {
        Some(rest) => modifiers.as_bytes() == rest,
        None => false,
    }
}

// The modifiers of a name, if it is that of a key with some of these.
fn modifier_in(modifiers: &'static [Modifier], key: Key, name: &[u8]) -> Option<Modifier>
    ensures { option_map (λ m. modified (key.entry.0.now, key.entry.1.now) (m.0.now, m.1.now)) result
        ≡ find (has_name name.now) (map (λ m. modified (key.entry.0.now, key.entry.1.now) (m.0.now, m.1.now)) modifiers.now) }
{
    for modifier in modifiers {
        if is_joined(name, key.0, modifier.0) {
            return Some(*modifier);
        }
    }
    None
}

// The modifiers of a name, if it is that of a key with modifiers.
fn modifier_of(key: Key, name: &[u8]) -> Option<Modifier>
    ensures { option_map (λ m. modified (key.entry.0.now, key.entry.1.now) (m.0.now, m.1.now)) result
        ≡ find (has_name name.now) (modified_by (key.entry.0.now, key.entry.1.now)) }
{
    modifier_in(&MODIFIERS, key, name)
}

// The key and the modifiers of a name, if it is that of one of these keys with modifiers.
fn key_in(keys: &'static [Key], name: &[u8]) -> Option<(Key, Modifier)>
    ensures { option_map (λ p. modified (p.0.0.now, p.0.1.now) (p.1.0.now, p.1.1.now)) result
        ≡ find (has_name name.now) (flat_map modified_by (map (λ k. (k.0.now, k.1.now)) keys.now)) }
{
    for key in keys {
        if let Some(modifier) = modifier_of(*key, name) {
            return Some((*key, modifier));
        }
    }
    None
}

/// The key and the modifiers of a name, if it is that of a key with modifiers.
pub(crate) fn key_named(name: &[u8]) -> Option<(Key, Modifier)>
    ensures { option_map (λ p. modified (p.0.0.now, p.0.1.now) (p.1.0.now, p.1.1.now)) result ≡ find (has_name name.now) modified_keys }
{
    key_in(&KEYS, name)
}

// The number of a name, if it is that of a function key of these numbers with Shift.
fn number_in(numbers: &'static [&'static str], name: &[u8]) -> Option<&'static str>
    ensures { option_map (λ n. shifted n.now) result ≡ find (has_name name.now) (map (λ n. shifted n.now) numbers.now) }
{
    for number in numbers {
        if is_joined(name, "kF", *number) {
            return Some(*number);
        }
    }
    None
}

/// The number of the function key of a name, if it is that of a function key with Shift.
pub(crate) fn function_key_named(name: &[u8]) -> Option<&'static str>
    ensures { option_map (λ n. shifted n.now) result ≡ find (has_name name.now) shifted_keys }
{
    number_in(&FUNCTION_KEYS, name)
}

// The rows whose names begin with a capital letter.
pub(crate) static CAPITALS: [UserRow; 61] = user_rows! {
    "AN", "boolean", "Screen drops output not yet written when it clears the screen";
    "AX", "boolean", "SGR 39 and SGR 49 set the default colors";
    "BD", "string", "Turn bracketed paste off";
    "BE", "string", "Turn bracketed paste on";
    "Bidi", "string", "The terminal lays out bidirectional text, as VTE does";
    "C0", "string", "Pair the characters of font 0 with what is written for them";
    "C8", "boolean", "The terminal shows the bright colors only in bold";
    "CE", "string", "Have the cursor keys send what they send outside application mode";
    "CO", "number", "Colors that are numbered as usual, where the others are direct";
    "CS", "string", "Have the cursor keys send what they send in application mode";
    "Clmg", "string", "Remove the left and right margins";
    "Cmg", "string", "Set the left and right margins", "left, right";
    "Cr", "string", "Return the color of the cursor to its default";
    "Cs", "string", "Set the color of the cursor", "color";
    "Dsbp", "string", "Turn bracketed paste off";
    "Dseks", "string", "Turn extended keys off";
    "Dsfcs", "string", "Turn reports of the focus off";
    "Dsmg", "string", "Disable left and right margins";
    "E0", "string", "Switch the character set G0 back to the standard one";
    "E3", "string", "Clear the lines that have scrolled off the screen";
    "Enbp", "string", "Turn bracketed paste on";
    "Eneks", "string", "Turn extended keys on";
    "Enfcs", "string", "Turn reports of the focus on";
    "Enmg", "string", "Enable left and right margins";
    "G0", "boolean", "The terminal switches fonts by the sequences of ISO 2022";
    "Hls", "string", "Begin or end a hyperlink", "identifier, address";
    "KJ", "string", "Give the encoding of the terminal";
    "LP", "boolean", "Obsolete: in screen, the right margin is that of the VT100";
    "Ms", "string", "Store a text, encoded in base64, in a selection", "selection, text";
    "NF", "boolean", "The terminal needs no flow control by XON and XOFF";
    "NQ", "boolean", "The strings u6 to u9 need not be the queries that ncurses expects";
    "Nobr", "string", "Bold text is not shown in brighter colors";
    "OL", "number", "The most output that screen keeps back for a slow terminal";
    "PE", "string", "The sequence that ends a pasted text";
    "PS", "string", "The sequence that begins a pasted text";
    "RGB", "boolean, number or string", "Colors are direct: red, green and blue have bits of their own";
    "RV", "string", "Ask for the version of the terminal, by its device attributes";
    "Rect", "string", "The terminal fills rectangles";
    "Rmol", "string", "Turn overlining off";
    "S0", "string", "Switch the character set G0 to another one", "final byte";
    "Se", "string", "Return the shape of the cursor to its default";
    "Setulc", "string", "Set the color of underlines, with red, green and blue in a number",
        "color";
    "Setulc1", "string", "Set the color of underlines, by its number in the palette", "color";
    "Smol", "string", "Turn overlining on";
    "Smulx", "string", "Set the style of underlines, from none by 0 to dashed by 5", "style";
    "Ss", "string", "Set the shape of the cursor", "shape";
    "Su", "boolean", "Underlines have styles and colors";
    "Swd", "string", "Begin to tell the working directory, up to the string fsl";
    "Sync", "string", "Begin by 1, or end by 2, an update that is shown all at once", "phase";
    "TF", "boolean", "Screen adds the capabilities that the entry lacks";
    "TS", "string", "Begin the title of the window, up to the string fsl";
    "Tc", "boolean", "Colors can be direct, by the sequences that RGB speaks of";
    "U8", "number", "If not 0, lines are drawn by Unicode's characters, not by acsc";
    "WS", "string", "Resize the screen", "lines, columns";
    "XC", "string", "Write characters as other strings, by the current font";
    "XF", "boolean", "The terminal can report that it gained or lost the focus";
    "XM", "string", "Turn the mouse on by 1, or off by 0", "state";
    "XR", "string", "Ask for the name and the version of the terminal";
    "XT", "boolean", "The terminal has xterm's sequences for titles and for the mouse";
    "Z0", "string", "Set the width of the screen to 132 columns";
    "Z1", "string", "Set the width of the screen to 80 columns";
};

// The other rows.
pub(crate) static OTHERS: [UserRow; 45] = user_rows! {
    "blink2", "string", "Turn fast blinking on";
    "csl", "string", "Clear the status line";
    "fd", "string", "Turn reports of the focus off";
    "fe", "string", "Turn reports of the focus on";
    "fullkbd", "boolean", "The terminal can report each key, as kitty does";
    "grbom", "string", "Turn bold mode off (GNU Hurd)";
    "gsbom", "string", "Turn bold mode on (GNU Hurd)";
    "kDN", "string", "The sequence that Shift with the down arrow key sends";
    "kUP", "string", "The sequence that Shift with the up arrow key sends";
    "ka2", "string", "The sequence that the upper middle key of the keypad sends";
    "kb1", "string", "The sequence that the middle left key of the keypad sends";
    "kb3", "string", "The sequence that the middle right key of the keypad sends";
    "kc2", "string", "The sequence that the lower middle key of the keypad sends";
    "kcbt2", "string", "Another sequence that the back-tab key sends";
    "kp1", "string", "The sequence that the 1 key of the keypad sends";
    "kp2", "string", "The sequence that the 2 key of the keypad sends";
    "kp3", "string", "The sequence that the 3 key of the keypad sends";
    "kp4", "string", "The sequence that the 4 key of the keypad sends";
    "kp5", "string", "The sequence that the 5 key of the keypad sends";
    "kp6", "string", "The sequence that the 6 key of the keypad sends";
    "kp7", "string", "The sequence that the 7 key of the keypad sends";
    "kp8", "string", "The sequence that the 8 key of the keypad sends";
    "kp9", "string", "The sequence that the 9 key of the keypad sends";
    "kpADD", "string", "The sequence that the plus key of the keypad sends";
    "kpCMA", "string", "The sequence that the comma key of the keypad sends";
    "kpDIV", "string", "The sequence that the slash key of the keypad sends";
    "kpDOT", "string", "The sequence that the dot key of the keypad sends";
    "kpMUL", "string", "The sequence that the asterisk key of the keypad sends";
    "kpNUM", "string", "The sequence that the Num Lock key of the keypad sends";
    "kpSUB", "string", "The sequence that the minus key of the keypad sends";
    "kpZRO", "string", "The sequence that the 0 key of the keypad sends";
    "kxIN", "string", "The sequence that the terminal sends when it gains the focus";
    "kxOUT", "string", "The sequence that the terminal sends when it loses the focus";
    "norm", "string", "Turn bold and dim text off";
    "ol", "string", "Return the color of underlines to its default";
    "opaq", "string", "Turn invisible text off";
    "rmxx", "string", "Turn struck-out text off";
    "rv", "string", "What answers RV, as a regular expression";
    "setal", "string", "Set the color of underlines", "color";
    "setrgbb", "string", "Set the background to a direct color", "red, green, blue";
    "setrgbf", "string", "Set the foreground to a direct color", "red, green, blue";
    "smul2", "string", "Turn double underlining on";
    "smxx", "string", "Turn struck-out text on";
    "xm", "string", "What the mouse sends",
        "row, column, button, state, first row, first column, last row, last column";
    "xr", "string", "What answers XR, as a regular expression";
};

// The keys that are pressed together with modifiers.
pub(crate) static KEYS: [Key; 12] = [
    ("kBEG", "the Begin key"),
    ("kDC", "the delete-character key"),
    ("kDN", "the down arrow key"),
    ("kEND", "the End key"),
    ("kFND", "the Find key"),
    ("kHOM", "the Home key"),
    ("kIC", "the insert-character key"),
    ("kLFT", "the left arrow key"),
    ("kNXT", "the Next Page key"),
    ("kPRV", "the Previous Page key"),
    ("kRIT", "the right arrow key"),
    ("kUP", "the up arrow key"),
];

// The modifiers by the numbers that xterm sends for them.
pub(crate) static MODIFIERS: [Modifier; 15] = [
    ("2", "Shift"),
    ("3", "Alt"),
    ("4", "Shift+Alt"),
    ("5", "Ctrl"),
    ("6", "Shift+Ctrl"),
    ("7", "Alt+Ctrl"),
    ("8", "Shift+Alt+Ctrl"),
    ("9", "Meta"),
    ("10", "Shift+Meta"),
    ("11", "Alt+Meta"),
    ("12", "Shift+Alt+Meta"),
    ("13", "Ctrl+Meta"),
    ("14", "Shift+Ctrl+Meta"),
    ("15", "Alt+Ctrl+Meta"),
    ("16", "Shift+Alt+Ctrl+Meta"),
];

// The numbers of the function keys that have a capability, `kf0` to `kf63`.
pub(crate) static FUNCTION_KEYS: [&'static str; 64] = [
    "0", "1", "2", "3", "4", "5", "6", "7", "8", "9", "10", "11", "12", "13", "14", "15", "16",
    "17", "18", "19", "20", "21", "22", "23", "24", "25", "26", "27", "28", "29", "30", "31", "32",
    "33", "34", "35", "36", "37", "38", "39", "40", "41", "42", "43", "44", "45", "46", "47", "48",
    "49", "50", "51", "52", "53", "54", "55", "56", "57", "58", "59", "60", "61", "62", "63",
];
