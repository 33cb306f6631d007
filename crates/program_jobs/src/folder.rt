//! The table texts of a folder.
use std::alloc::AllocError;

/// The end of the name of a table text.
const ENDING: &str = ".tables";

/// The paths that end in `.tables`, in the order of their bytes.
pub fn texts_among(paths: Vec<String>) -> Result<Vec<String>, AllocError> {
    let mut texts = paths;
    texts.retain(|path| path.as_str().ends_with(ENDING));
    texts.sort()?;
    Ok(texts)
}
