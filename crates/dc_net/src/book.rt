//! What a run records.

ghost use Rattle.std.specs.Prelude.{◌≡◌, ◌+◌, ◌*◌, ◌<◌, ◌≤◌, [], length, IfOk};
ghost use Rattle.dc_net_rules.specs.Runs.{honest_stations, script_turn, rounds_of};

use crate::net::Net;
use crate::publishing::publish;
use crate::rows::push_heard;
use crate::word_list::WordList;
use dc_field::{NoMemory, Word};
use dc_script::Round;
use std::alloc::Global;

/// The words of the rounds that were played, in room for all rounds of the session.
#[derive(Drop)]
pub struct Book {
    /// All words, those of a round by station.
    pub words: WordList,
    /// The sum of each round.
    pub sums: WordList,
    /// The words that the honest stations received, those of a round in rising order of the stations.
    pub delivered: WordList,
    /// The words that the members said in the last round.
    pub said: WordList,
}

impl Book {
    ghost use Rattle.dc_net.specs.Rows.{AreWordsOf};
    ghost use Rattle.dc_net.specs.Run.{IsRecorded, IsPlayable, honest_word};

    /// No round yet, in a session of a net with so many honest stations. All memory of the session is
    /// taken here.
    pub(crate) fn start(alloc: Global, net: &Net, count: usize) -> Result<Book, NoMemory>
        requires count { count ≡ length (honest_stations net.now) }
        requires few { count ≤ 65535 }
        ensures { IfOk result (λ book. IsRecorded net.now [] book) }
    {
        let rounds = usize::from(net.words);
        let stations = usize::from(net.graph.stations());
        let members = usize::from(net.coalition.len());
        let words = WordList::start(alloc, rounds * stations)?;
        let sums = WordList::start(alloc, rounds)?;
        let delivered = WordList::start(alloc, rounds * count)?;
        let said = WordList::start(alloc, members)?;
        Ok(Book {
            words,
            sums,
            delivered,
            said,
        })
    }

    /// Records a round, from the words of the honest stations in it: the words of all stations, their
    /// sum, and what each of the honest stations receives. Takes no memory.
    pub(crate) fn record(&mut self, net: &Net, round: u16, honest: &[Word], count: usize)
        requires count { count ≡ length (honest_stations net.now) }
        requires rounds { round < length net.now.script.rounds }
        requires words { round < net.now.words }
        requires playable { IsPlayable net.now (round * net.now.stations) (script_turn net.now round) }
        requires recorded { IsRecorded net.now (rounds_of net.now round) self.old }
        requires honest { AreWordsOf (honest_word net.now (rounds_of net.now round))
            (honest_stations net.now) honest.now }
        ensures { IsRecorded net.now (rounds_of net.now (round + 1)) self.new }
    {
        let stations = net.graph.stations();
        let turn = turn_of(net, round);
        let before = self.words.as_slice().len();
        publish(
            &mut self.words,
            &mut self.said,
            &net.coalition,
            stations,
            turn.says.as_slice(),
            honest,
        );
        let words = self.words.as_slice();
        let sum = Word::sum(&words[before..]);
        push_heard(
            &mut self.delivered,
            &turn.delivery,
            words,
            stations,
            &sum,
            count,
        );
        self.sums.push(sum);
    }
}

/// The script's round of this number.
fn turn_of(net: &Net, round: u16) -> &Round
    requires { round < length net.now.script.rounds }
    ensures { result.now ≡ script_turn net.now round }
{
    let script = &net.script;
    &script.rounds.as_slice()[usize::from(round)]
}
