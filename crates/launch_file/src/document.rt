//! The document of a launch file.
ghost use Rattle.std.specs.Prelude.{◌≡◌, Err, IfOk};
ghost use Rattle.toml.specs.View.{table_view};
ghost use Rattle.launch_file.specs.Refusals.{IsDocument, IsNoDocument};

use std::alloc::Global;
use toml::Table;

/// Why there is no document.
pub(crate) enum DocumentError {
    NotToml,
    Memory,
}

/// The most bytes of a launch file.
pub const FILE_LIMIT: usize = 1_048_576;

/// The document of a launch file.
pub(crate) fn document(alloc: Global, bytes: &[u8]) -> Result<Table, DocumentError>
    ensures ok { IfOk result (λ t. IsDocument bytes.now (table_view t)) }
    ensures no_document { result ≡ Err DocumentError.NotToml → IsNoDocument bytes.now }
{
    if bytes.len() > FILE_LIMIT {
        return Err(DocumentError::NotToml);
    }
    let Ok(text) = std::str::from_utf8(bytes) else {
        return Err(DocumentError::NotToml);
    };
    match toml::table_from_str(alloc, text) {
        Ok(table) => Ok(table),
        Err(error) => {
            if error.is_memory() {
                Err(DocumentError::Memory)
            } else {
                Err(DocumentError::NotToml)
            }
        }
    }
}
