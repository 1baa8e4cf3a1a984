//! Why the files of a net are not read as a net.

ghost use Rattle.std.specs.Prelude.{◌≡◌};
ghost use Rattle.dc_net_files.specs.declared.fault.NotRead.TheVariants.{NoMemory as no_memory};

use dc_field::Text;
use dc_keyfile::KeyFault;
use dc_manifest::ManifestFault;
use dc_net::NetFault;
use dc_script::ScriptFault;
use dc_stream::StreamFault;
use std::alloc::{AllocError, AllocFailed};

/// Why a file of a net does not have its format.
#[derive(Debug, Drop)]
pub enum NetFileFault {
    /// It is no manifest.
    Manifest(ManifestFault),
    /// It is no key file.
    Keys(KeyFault),
    /// It is no stream.
    Stream(StreamFault),
    /// It is no script.
    Script(ScriptFault),
}

/// Why there is no net. A name is always the last one that the shelf was asked for.
#[derive(Debug, Drop)]
pub enum NotRead {
    /// There is no file of the name.
    Missing {
        /// The name.
        name: Text,
    },
    /// The file has more bytes than its limit.
    TooLong {
        /// The name.
        name: Text,
    },
    /// The file does not have its format.
    Malformed {
        /// The name.
        name: Text,
        /// The first fault of its bytes.
        fault: NetFileFault,
    },
    /// The files do not agree.
    Disagree {
        /// In what they differ.
        fault: NetFault,
    },
    /// The shelf failed.
    ShelfFault,
    /// Memory ran out.
    NoMemory,
}

impl From<AllocError> for NotRead {
    ghost from_gives = { λ _ e. e ≡ no_memory };

    fn from(_e: AllocError) -> NotRead {
        NotRead::NoMemory
    }
}

impl<T: Drop> From<AllocFailed<T>> for NotRead {
    ghost from_gives = { λ _ e. e ≡ no_memory };

    fn from(_e: AllocFailed<T>) -> NotRead {
        NotRead::NoMemory
    }
}
