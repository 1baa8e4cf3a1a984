//! The words of a command line as a command.

ghost use Rattle.std.specs.Prelude.{◌≡◌, ◌≤◌, ◌∷◌};
ghost use Rattle.dc_spec.specs.Limits.{most_stations};
ghost use Rattle.dc_cli.specs.Forms.{texts, is_name as name_test, seed_in, number_between, most_words_of};
ghost use Rattle.dc_cli.specs.Commands.{ReadsAsStation, ReadsAsPlayer, ReadsAsFiles, ReadsAsHub, ReadsAsHosted, ReadsAsLength, ReadsAsTarget, ReadsAs, ReadsAsFile, ReadsAsKeygen, ReadsAsNames, ReadsAsFlag, ReadsAsMigrate, ReadsAsReplay, ReadsAsLogs, ReadsAsTwin, ReadsAsSteer, ReadsAsEnds, ReadsAsSecond, ReadsAsWanted, ReadsAsTrial, ReadsAsStations, ReadsAsWords, ReadsAsWorkers, ReadsAsCount};

use dc_field::read_decimal;
use dc_text::{Digits, decode_payload, payload_length};

/// A command with its arguments.
#[derive(Clone, Copy)]
pub enum Command<'a> {
    /// Prints the superposed words of a transcript.
    Sum {
        file: &'a str,
    },
    /// Writes the key file that a seed generates for the net of a manifest.
    Keygen {
        seed: [u8; 32],
        net: &'a str,
        target: &'a str,
    },
    /// Writes the key file of seeds, in which each edge of the net of a manifest has this seed.
    KeygenSeeds {
        seed: [u8; 32],
        net: &'a str,
        target: &'a str,
    },
    /// Writes the key file of the pads of a key file.
    Migrate {
        keys: &'a str,
        target: &'a str,
    },
    /// Prints the view of the run of the net that a manifest and its files make, computed by 1 to 64 workers.
    Replay {
        net: &'a str,
        workers: u32,
    },
    /// Prints the logs of the run of the net that a manifest and its files make.
    Logs {
        net: &'a str,
    },
    /// Writes the key file of the twin of a net by a list of images, and prints the shifts.
    Twin {
        net: &'a str,
        perm: &'a str,
        target: &'a str,
    },
    /// Writes the key file in which the pads of the pair of two stations, each 0 to 255, are steered towards wanted words, and
    /// prints the changes.
    Steer {
        net: &'a str,
        u: u16,
        v: u16,
        wanted: &'a str,
        target: &'a str,
    },
    /// Plays station `id`, 0 to 255, with the hub at an address, and prints the station's log.
    Station {
        addr: &'a str,
        id: u16,
        keys: &'a str,
        stream: &'a str,
    },
    /// Runs the hub of 1 to 256 stations and 1 to 4096 words at an address, writes the transcript, and prints the superposed words.
    Hub {
        addr: &'a str,
        stations: u16,
        words: u16,
        target: &'a str,
    },
    /// Prints the summary of the run of the net of a seed and of 1 to 256 stations and 1 to 4096 words, computed by 1 to 64
    /// workers.
    Trial {
        seed: u32,
        stations: u16,
        words: u16,
        workers: u32,
    },
}

/// The command that the words spell, or how many words from the front begin a valid command line, at most.
pub fn command_of(words: &[String]) -> Result<Command<'_>, u32>
    ensures { ReadsAs (texts words.now) result }
{
    match words {
        [verb, rest @ ..] => command_with(verb.as_str(), rest),
        _ => Err(0),
    }
}

fn command_with<'a>(verb: &str, rest: &'a [String]) -> Result<Command<'a>, u32>
    ensures { ReadsAs (verb.now ∷ texts rest.now) result }
{
    match verb {
        "sum" => sum_of(rest),
        "keygen" => keygen_of(rest),
        "migrate" => migrate_of(rest),
        "replay" => replay_of(rest),
        "logs" => logs_of(rest),
        "twin" => twin_of(rest),
        "steer" => steer_of(rest),
        "station" => player_of(rest),
        "hub" => hub_of(rest),
        "trial" => trial_of(rest),
        _ => Err(0),
    }
}

fn sum_of(rest: &[String]) -> Result<Command<'_>, u32>
    ensures { ReadsAsFile (texts rest.now) result }
{
    match rest {
        [file] if is_name(file.as_str()) => Ok(Command::Sum {
            file: file.as_str(),
        }),
        [file, _, ..] if is_name(file.as_str()) => Err(2),
        _ => Err(1),
    }
}

fn keygen_of(rest: &[String]) -> Result<Command<'_>, u32>
    ensures { ReadsAsKeygen (texts rest.now) result }
{
    match rest {
        [digits, names @ ..] => match seed_of(digits.as_str()) {
            Some(seed) => keygen_with(seed, names),
            None => Err(1),
        },
        _ => Err(1),
    }
}

fn keygen_with(seed: [u8; 32], names: &[String]) -> Result<Command<'_>, u32>
    ensures { ReadsAsNames seed (texts names.now) result }
{
    match names {
        [net, target, flags @ ..] if is_name(net.as_str()) && is_name(target.as_str()) => {
            keygen_by(seed, net.as_str(), target.as_str(), flags)
        }
        [net, ..] if is_name(net.as_str()) => Err(3),
        _ => Err(2),
    }
}

fn keygen_by<'a>(
    seed: [u8; 32],
    net: &'a str,
    target: &'a str,
    flags: &[String],
) -> Result<Command<'a>, u32>
    ensures { ReadsAsFlag seed net.now target.now (texts flags.now) result }
{
    match flags {
        [] => Ok(Command::Keygen { seed, net, target }),
        [flag] if flag.as_str() == "--seeds" => Ok(Command::KeygenSeeds { seed, net, target }),
        [flag, _, ..] if flag.as_str() == "--seeds" => Err(5),
        _ => Err(4),
    }
}

fn migrate_of(names: &[String]) -> Result<Command<'_>, u32>
    ensures { ReadsAsMigrate (texts names.now) result }
{
    match names {
        [keys, target] if is_name(keys.as_str()) && is_name(target.as_str()) => {
            Ok(Command::Migrate {
                keys: keys.as_str(),
                target: target.as_str(),
            })
        }
        [keys, target, _, ..] if is_name(keys.as_str()) && is_name(target.as_str()) => Err(3),
        [keys, ..] if is_name(keys.as_str()) => Err(2),
        _ => Err(1),
    }
}

fn replay_of(rest: &[String]) -> Result<Command<'_>, u32>
    ensures { ReadsAsReplay (texts rest.now) result }
{
    match rest {
        [net, option @ ..] if is_name(net.as_str()) => match workers_of(2, option) {
            Ok(workers) => Ok(Command::Replay {
                net: net.as_str(),
                workers,
            }),
            Err(place) => Err(place),
        },
        _ => Err(1),
    }
}

fn logs_of(rest: &[String]) -> Result<Command<'_>, u32>
    ensures { ReadsAsLogs (texts rest.now) result }
{
    match rest {
        [net] if is_name(net.as_str()) => Ok(Command::Logs { net: net.as_str() }),
        [net, _, ..] if is_name(net.as_str()) => Err(2),
        _ => Err(1),
    }
}

fn twin_of(names: &[String]) -> Result<Command<'_>, u32>
    ensures { ReadsAsTwin (texts names.now) result }
{
    match names {
        [net, perm, target]
            if is_name(net.as_str()) && is_name(perm.as_str()) && is_name(target.as_str()) => {
            Ok(Command::Twin {
                net: net.as_str(),
                perm: perm.as_str(),
                target: target.as_str(),
            })
        }
        [net, perm, target, _, ..]
            if is_name(net.as_str()) && is_name(perm.as_str()) && is_name(target.as_str()) => {
            Err(4)
        }
        [net, perm, ..] if is_name(net.as_str()) && is_name(perm.as_str()) => Err(3),
        [net, ..] if is_name(net.as_str()) => Err(2),
        _ => Err(1),
    }
}

fn steer_of(rest: &[String]) -> Result<Command<'_>, u32>
    ensures { ReadsAsSteer (texts rest.now) result }
{
    match rest {
        [net, ends @ ..] if is_name(net.as_str()) => steer_with(net.as_str(), ends),
        _ => Err(1),
    }
}

fn steer_with<'a>(net: &'a str, rest: &'a [String]) -> Result<Command<'a>, u32>
    ensures { ReadsAsEnds net.now (texts rest.now) result }
{
    match rest {
        [digits, more @ ..] => match station_of(digits.as_str()) {
            Some(u) => steer_from(net, u, more),
            None => Err(2),
        },
        _ => Err(2),
    }
}

fn steer_from<'a>(net: &'a str, u: u16, rest: &'a [String]) -> Result<Command<'a>, u32>
    ensures { ReadsAsSecond net.now u (texts rest.now) result }
{
    match rest {
        [digits, names @ ..] => match station_of(digits.as_str()) {
            Some(v) => steer_between(net, u, v, names),
            None => Err(3),
        },
        _ => Err(3),
    }
}

fn steer_between<'a>(net: &'a str, u: u16, v: u16, names: &'a [String]) -> Result<Command<'a>, u32>
    ensures { ReadsAsWanted net.now u v (texts names.now) result }
{
    match names {
        [wanted, target] if is_name(wanted.as_str()) && is_name(target.as_str()) => {
            Ok(Command::Steer {
                net,
                u,
                v,
                wanted: wanted.as_str(),
                target: target.as_str(),
            })
        }
        [wanted, target, _, ..] if is_name(wanted.as_str()) && is_name(target.as_str()) => Err(6),
        [wanted, ..] if is_name(wanted.as_str()) => Err(5),
        _ => Err(4),
    }
}

fn player_of(rest: &[String]) -> Result<Command<'_>, u32>
    ensures { ReadsAsStation (texts rest.now) result }
{
    match rest {
        [addr, player @ ..] if is_name(addr.as_str()) => player_at(addr.as_str(), player),
        _ => Err(1),
    }
}

fn player_at<'a>(addr: &'a str, rest: &'a [String]) -> Result<Command<'a>, u32>
    ensures { ReadsAsPlayer addr.now (texts rest.now) result }
{
    match rest {
        [digits, names @ ..] => match station_of(digits.as_str()) {
            Some(id) => player_with(addr, id, names),
            None => Err(2),
        },
        _ => Err(2),
    }
}

fn player_with<'a>(addr: &'a str, id: u16, names: &'a [String]) -> Result<Command<'a>, u32>
    ensures { ReadsAsFiles addr.now id (texts names.now) result }
{
    match names {
        [keys, stream] if is_name(keys.as_str()) && is_name(stream.as_str()) => {
            Ok(Command::Station {
                addr,
                id,
                keys: keys.as_str(),
                stream: stream.as_str(),
            })
        }
        [keys, stream, _, ..] if is_name(keys.as_str()) && is_name(stream.as_str()) => Err(5),
        [keys, ..] if is_name(keys.as_str()) => Err(4),
        _ => Err(3),
    }
}

fn hub_of(rest: &[String]) -> Result<Command<'_>, u32>
    ensures { ReadsAsHub (texts rest.now) result }
{
    match rest {
        [addr, session @ ..] if is_name(addr.as_str()) => hub_at(addr.as_str(), session),
        _ => Err(1),
    }
}

fn hub_at<'a>(addr: &'a str, rest: &'a [String]) -> Result<Command<'a>, u32>
    ensures { ReadsAsHosted addr.now (texts rest.now) result }
{
    match rest {
        [digits, more @ ..] => match small_number_of(digits.as_str(), 256) {
            Some(stations) => hub_among(addr, stations, more),
            None => Err(2),
        },
        _ => Err(2),
    }
}

fn hub_among<'a>(addr: &'a str, stations: u16, rest: &'a [String]) -> Result<Command<'a>, u32>
    ensures { ReadsAsLength addr.now stations (texts rest.now) result }
{
    match rest {
        [digits, more @ ..] => match small_number_of(digits.as_str(), 4096) {
            Some(words) => hub_for(addr, stations, words, more),
            None => Err(3),
        },
        _ => Err(3),
    }
}

fn hub_for<'a>(
    addr: &'a str,
    stations: u16,
    words: u16,
    rest: &'a [String],
) -> Result<Command<'a>, u32>
    ensures { ReadsAsTarget addr.now stations words (texts rest.now) result }
{
    match rest {
        [target] if is_name(target.as_str()) => Ok(Command::Hub {
            addr,
            stations,
            words,
            target: target.as_str(),
        }),
        [target, _, ..] if is_name(target.as_str()) => Err(5),
        _ => Err(4),
    }
}

fn trial_of(rest: &[String]) -> Result<Command<'_>, u32>
    ensures { ReadsAsTrial (texts rest.now) result }
{
    match rest {
        [digits, more @ ..] => match number_of(digits.as_str(), 0, u32::MAX) {
            Some(seed) => trial_with(seed, more),
            None => Err(1),
        },
        _ => Err(1),
    }
}

fn trial_with<'a>(seed: u32, rest: &'a [String]) -> Result<Command<'a>, u32>
    ensures { ReadsAsStations seed (texts rest.now) result }
{
    match rest {
        [digits, more @ ..] => match small_number_of(digits.as_str(), 256) {
            Some(stations) => trial_among(seed, stations, more),
            None => Err(2),
        },
        _ => Err(2),
    }
}

fn trial_among<'a>(seed: u32, stations: u16, rest: &'a [String]) -> Result<Command<'a>, u32>
    requires some { 1 ≤ stations }
    requires most { stations ≤ most_stations }
    ensures { ReadsAsWords seed stations (texts rest.now) result }
{
    match rest {
        [digits, option @ ..] => match small_number_of(digits.as_str(), most_words_of(stations)) {
            Some(words) => match workers_of(4, option) {
                Ok(workers) => Ok(Command::Trial {
                    seed,
                    stations,
                    words,
                    workers,
                }),
                Err(place) => Err(place),
            },
            None => Err(3),
        },
        _ => Err(3),
    }
}

/// The most words of a trial of 1 to 256 stations.
fn most_words_of(stations: u16) -> u16
    requires some { 1 ≤ stations }
    ensures { result ≡ most_words_of stations }
{
    let most = 524_288 / u32::from(stations);
    if most < 4096 { most as u16 } else { 4096 }
}

/// The number of workers that the last words give, after so many others; 1 where there are none.
fn workers_of(before: u32, rest: &[String]) -> Result<u32, u32>
    requires few { before ≤ 4 }
    ensures { ReadsAsWorkers before (texts rest.now) result }
{
    match rest {
        [] => Ok(1),
        [option, count @ ..] if option.as_str() == "--workers" => count_of(before + 1, count),
        _ => Err(before),
    }
}

fn count_of(before: u32, rest: &[String]) -> Result<u32, u32>
    requires few { before ≤ 5 }
    ensures { ReadsAsCount before (texts rest.now) result }
{
    match rest {
        [] => Err(before),
        [digits, more @ ..] => match number_of(digits.as_str(), 1, 64) {
            Some(workers) if more.is_empty() => Ok(workers),
            Some(_) => Err(before + 1),
            None => Err(before),
        },
    }
}

/// The number within these limits that a word spells.
fn number_of(word: &str, low: u32, high: u32) -> Option<u32>
    ensures { result ≡ number_between low high word.now }
{
    match read_decimal(word.as_bytes()) {
        Some(number) if low <= number && number <= high => Some(number),
        _ => None,
    }
}

/// The station, 0 to 255, that a word spells.
fn station_of(word: &str) -> Option<u16>
    ensures { result ≡ number_between 0 255 word.now }
{
    match number_of(word, 0, 255) {
        Some(number) => Some(number as u16),
        None => None,
    }
}

/// The number from 1 to another that a word spells.
fn small_number_of(word: &str, high: u16) -> Option<u16>
    ensures { result ≡ number_between 1 high word.now }
{
    match number_of(word, 1, u32::from(high)) {
        Some(number) => Some(number as u16),
        None => None,
    }
}

/// The seed that a word spells in 64 lower-case hexadecimal digits.
fn seed_of(word: &str) -> Option<[u8; 32]>
    ensures { result ≡ seed_in word.now }
{
    let digits = word.as_bytes();
    if payload_length(digits) != Some(32) {
        return None;
    }
    let mut seed = [0u8; 32];
    decode_payload(&Digits::new(), digits, &mut seed);
    Some(seed)
}

/// Whether a word is a name: not empty, and not beginning with `-`.
fn is_name(word: &str) -> bool
    ensures { result ≡ name_test word.now }
{
    match word.as_bytes() {
        [] => false,
        [first, ..] => *first != b'-',
    }
}
