//! The laws of this crate: statements on its definitions, proved in the modules of their subjects.
//! They compute nothing.
pub use crate::renaming::{
    renamed_parts_follow, renames_are_applied, renames_keep_entries, renames_keep_user_values,
};
