//! How a call ended, and the status that the program ends with.

ghost use Rattle.std.specs.Prelude.{◌≡◌};
ghost use Rattle.dc_cli.specs.Outcomes.{status_of};

use dc_field::{ListFault, Text};
use dc_keyfile::KeyFault;
use dc_live::PeerFault;
use dc_manifest::ManifestFault;
use dc_net::NetFault;
use dc_script::ScriptFault;
use dc_steer::SteerFault;
use dc_stream::StreamFault;
use dc_superpose::TranscriptFault;
use dc_twin::TwinFault;

/// Why the bytes of a file do not have the format that the command reads.
#[derive(Debug, Drop)]
pub enum FileFault {
    /// They are no transcript.
    Transcript(TranscriptFault),
    /// They are no key file.
    Keys(KeyFault),
    /// They are no manifest.
    Manifest(ManifestFault),
    /// They are no stream.
    Stream(StreamFault),
    /// They are no script.
    Script(ScriptFault),
    /// They are no list of images, or of wanted words.
    List(ListFault),
}

/// Why a command does not do with a net what the words ask for.
#[derive(Clone, Copy, Debug)]
pub enum CommandFault {
    /// The net has no twin by the images.
    Twin(TwinFault),
    /// The pair cannot be steered towards the wanted words.
    Steer(SteerFault),
}

/// How a call ended. Each outcome but `Done` puts one line on the sink of faults.
#[derive(Debug, Drop)]
pub enum Outcome {
    /// All was done and written. Status 0.
    Done,
    /// The words are not a valid command line. `place` is how many words from the front begin one, at most. Status 2.
    Usage { place: u32 },
    /// There is no file of the name. Status 3.
    Missing { name: Text },
    /// The file has more bytes than its limit. Status 4.
    TooLong { name: Text },
    /// The file does not have its format. Status 5.
    Malformed { name: Text, fault: FileFault },
    /// The files of a net do not agree. Status 6.
    Disagree { fault: NetFault },
    /// The command `twin` or `steer` refuses. Status 7.
    Refused { fault: CommandFault },
    /// The shelf failed. Status 8.
    ShelfFault,
    /// The sink of output failed. Status 9.
    SinkFault,
    /// The wire failed. Status 10.
    WireFault,
    /// The bytes of a peer do not fit the session. Status 11.
    Peer { peer: u32, fault: PeerFault },
    /// Memory ran out. Status 12.
    NoMemory,
}

/// The status that the program ends with.
pub fn status(o: &Outcome) -> u8
    ensures { result ≡ status_of o.now }
{
    match o {
        Outcome::Done => 0,
        Outcome::Usage { .. } => 2,
        Outcome::Missing { .. } => 3,
        Outcome::TooLong { .. } => 4,
        Outcome::Malformed { .. } => 5,
        Outcome::Disagree { .. } => 6,
        Outcome::Refused { .. } => 7,
        Outcome::ShelfFault => 8,
        Outcome::SinkFault => 9,
        Outcome::WireFault => 10,
        Outcome::Peer { .. } => 11,
        Outcome::NoMemory => 12,
    }
}
