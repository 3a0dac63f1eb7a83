//! The page that shows a log: what stands in it before the log, and what behind.
//!
//! The texts are those of the files in `page/` at the top of the repository.

mod check;
mod front;
mod log;
mod page;
mod spots;
mod state;
mod view;

use std::alloc::{AllocError, Global};

/// What stands before the log.
pub fn before_log() -> &'static [u8] {
    front::TEXT
}

/// What stands behind it.
pub fn behind_log(alloc: Global) -> Result<Vec<u8>, AllocError> {
    let mut back = Vec::new(alloc);
    back.extend_from_slice(b"</script>\n<script>\n'use strict';\n")?;
    back.extend_from_slice(log::TEXT)?;
    back.extend_from_slice(state::TEXT)?;
    back.extend_from_slice(spots::TEXT)?;
    back.extend_from_slice(check::TEXT)?;
    back.extend_from_slice(view::TEXT)?;
    back.extend_from_slice(page::TEXT)?;
    back.extend_from_slice(b"</script>\n</body>\n</html>\n")?;
    Ok(back)
}
