//! Which capabilities a source may have.

/// Which capabilities a source may have.
#[derive(Clone, Copy, Debug, PartialEq, Eq)]
pub enum Capabilities {
    /// Those of the tables, as `ti tic` takes them: any other name is unknown.
    Profile,
    /// User-defined ones too, as `tic -x` takes them.
    UserDefined,
}
