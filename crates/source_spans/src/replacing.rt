//! A block with a part of an item exchanged.
ghost use Rattle.source_spans.specs.Replacing.{NewTextIsRead, OneItemIsReplaced, OthersAreReadAsBefore, PlainTextsReplace};

/// A law, with no code: once a part of an item is exchanged for a text that keeps it one item, that
/// item has the new text and is read so, and the names field and the other items have the texts
/// that they had, and are read as they were. The text begins with no white space and has no
/// newline. Line breaks and comments in the part are covered.
pub fn one_item_is_replaced()
    ensures texts { OneItemIsReplaced }
    ensures others { OthersAreReadAsBefore }
    ensures new { NewTextIsRead }
{}

/// A law, with no code: bytes without a comma, a backslash, a `^` and a newline, the first of which
/// is not white space, keep an item one item in the place of some of its bytes, if these come after
/// such bytes and end at the end of the item or before such a byte. A name may so take the place of
/// another, and a sign that of another sign.
pub fn plain_texts_replace()
    ensures { PlainTextsReplace }
{}
