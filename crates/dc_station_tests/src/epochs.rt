//! Epochs: each word with its step, its leaves and what the next word is asked for.

use crate::reading::{byte_number, hex_number, number, part, short_number, word};
use dc_average::{Ask, BadWord, Epoch, Leaves, Step};
use dc_field::{BadGroup, BadSplit, Value};
use std::alloc::Global;
use std::test::*;

/// An epoch under test, the leaves of its last word, and how many of them were compared.
#[derive(Drop)]
struct Trial {
    epoch: Epoch,
    out: Leaves,
    compared: usize,
}

fn start(alloc: Global) -> Result<Trial, Fail> {
    let epoch = Epoch::start(alloc).ok().ok_or("out of memory")?;
    let out = Leaves::start(alloc).ok().ok_or("out of memory")?;
    Ok(Trial {
        epoch,
        out,
        compared: 0,
    })
}

/// The check that a void word breaks, from part 3 of its line on.
fn bad_word(line: &str) -> Option<BadWord> {
    match part(line, 3)? {
        "count" => Some(BadWord::Group {
            fault: BadGroup::Count {
                seen: number(part(line, 4)?)?,
            },
        }),
        "limb" => Some(BadWord::Group {
            fault: BadGroup::Limb {
                l: byte_number(part(line, 4)?)?,
                seen: number(part(line, 5)?)?,
            },
        }),
        "part-count" => Some(BadWord::Split {
            fault: BadSplit::Count {
                whole: short_number(part(line, 4)?)?,
                part: short_number(part(line, 5)?)?,
            },
        }),
        "part-limb" => Some(BadWord::Split {
            fault: BadSplit::Limb {
                l: byte_number(part(line, 4)?)?,
                whole: short_number(part(line, 5)?)?,
                part: short_number(part(line, 6)?)?,
            },
        }),
        "uneven" => Some(BadWord::Uneven {
            l: byte_number(part(line, 4)?)?,
            seen: short_number(part(line, 5)?)?,
        }),
        _ => None,
    }
}

/// The step of a word, and what the next word is asked for, from part 2 of its line on.
fn step(line: &str) -> Option<(Step, Ask)> {
    match part(line, 2)? {
        "went" => Some((
            Step::Went,
            Ask::AtMost {
                mean: hex_number(part(line, 3)?)?,
            },
        )),
        "ended" => Some((Step::Ended, Ask::Over)),
        "void" => Some((
            Step::Void {
                why: bad_word(line)?,
            },
            Ask::Over,
        )),
        _ => None,
    }
}

/// Takes the word of a line. An epoch that is over starts again first.
fn take(trial: &mut Trial, line: &str) -> Option<()> {
    if trial.compared != trial.out.len() {
        return None;
    }
    if trial.epoch.ask() == Ask::Over {
        trial.epoch.restart();
    }
    if trial.epoch.ask() == Ask::Over {
        return None;
    }
    let (due, ask) = step(line)?;
    if trial.epoch.take(&word(part(line, 1)?)?, &mut trial.out) != due {
        return None;
    }
    if trial.epoch.ask() != ask {
        return None;
    }
    trial.compared = 0;
    Some(())
}

/// Compares the next leaf with a line: its value's number, how many stations sent it, its range.
fn compare(trial: &mut Trial, line: &str) -> Option<()> {
    if trial.out.len() <= trial.compared {
        return None;
    }
    let leaf = trial.out.get(trial.compared);
    if leaf.value.number() != hex_number(part(line, 1)?)?
        || leaf.times != short_number(part(line, 2)?)?
        || leaf.low != hex_number(part(line, 3)?)?
        || leaf.high != hex_number(part(line, 4)?)?
    {
        return None;
    }
    trial.compared += 1;
    Some(())
}

/// Compares whether a station with a value is called for the next word.
fn call(trial: &Trial, line: &str) -> Option<()> {
    let value = Value::of_number(hex_number(part(line, 1)?)?)?;
    let due = match part(line, 2)? {
        "yes" => true,
        "no" => false,
        _ => return None,
    };
    if trial.epoch.ask() == Ask::Over {
        return None;
    }
    if trial.epoch.calls(&value) != due {
        return None;
    }
    Some(())
}

fn follow(trial: &mut Trial, line: &str) -> Option<()> {
    match part(line, 0)? {
        "title" => Some(()),
        "call" => call(trial, line),
        "word" => take(trial, line),
        "leaf" => compare(trial, line),
        _ => None,
    }
}

/// The first line, from 0, that an epoch does not follow.
fn first_wrong(alloc: Global, lines: &str) -> Result<Option<usize>, Fail> {
    let mut trial = start(alloc)?;
    for (n, line) in lines.split('\n').enumerate() {
        if follow(&mut trial, line).is_none() {
            return Ok(Some(n));
        }
    }
    if trial.compared != trial.out.len() {
        return Ok(Some(usize::MAX));
    }
    Ok(None)
}

/// Fails where an epoch does not follow lines.
fn follows(alloc: Global, lines: &str) -> Result<(), Fail> {
    match first_wrong(alloc, lines)? {
        None => Ok(()),
        Some(_) => Err("an epoch does not follow the lines")?,
    }
}

#[test]
fn epochs_worked_by_hand(rt: HostRuntime) -> Result<(), Fail> {
    let alloc = rt.alloc();
    follows(alloc, worked_0())?;
    follows(alloc, worked_1())?;
    follows(alloc, worked_2())?;
    follows(alloc, worked_3())?;
    follows(alloc, worked_4())?;
    follows(alloc, worked_5())?;
    Ok(())
}

#[test]
fn epochs_of_another_program(rt: HostRuntime) -> Result<(), Fail> {
    let alloc = rt.alloc();
    follows(alloc, other_0())?;
    follows(alloc, other_1())?;
    follows(alloc, other_2())?;
    follows(alloc, other_3())?;
    follows(alloc, other_4())?;
    follows(alloc, other_5())?;
    follows(alloc, other_6())?;
    follows(alloc, other_7())?;
    follows(alloc, other_8())?;
    follows(alloc, other_9())?;
    follows(alloc, other_10())?;
    follows(alloc, other_11())?;
    follows(alloc, other_12())?;
    Ok(())
}

/// Epochs worked by hand. After `word` stand the digits of the word, without the zeros at its end, its step
/// and the mean that the next word asks for; after `leaf` the number of its value, how many stations sent
/// it and the range of its group; after `call` a value's number, and whether it is sent in the next word.
/// Numbers of values are hexadecimal.
fn worked_0() -> &'static str {
    "title two of three stations send the same
call 0 yes
call ffffffffffffffffffffffffffffff yes
word 00003000000000000000000000000000000000000000000000000000000000000000000000000007 went 2
call 0 yes
call 2 yes
call 3 no
call ffffffffffffffffffffffffffffff no
word 00001000000000000000000000000000000000000000000000000000000000000000000000000001 went 3
leaf 1 1 0 2
call 0 no
call 2 no
call 3 yes
call 4 no
word 00002000000000000000000000000000000000000000000000000000000000000000000000000006 ended
leaf 3 2 3 ffffffffffffffffffffffffffffff"
}

fn worked_1() -> &'static str {
    "title all send the same
word 00002 went 0
word 00002 ended
leaf 0 2 0 ffffffffffffffffffffffffffffff
word 001000ff000ff000ff000ff000ff000ff000ff000ff000ff000ff000ff000ff000ff000ff000ff went ffffffffffffffffffffffffffffff
word 001000ff000ff000ff000ff000ff000ff000ff000ff000ff000ff000ff000ff000ff000ff000ff ended
leaf ffffffffffffffffffffffffffffff 256 0 ffffffffffffffffffffffffffffff"
}

fn worked_2() -> &'static str {
    "title a disturbed count
word 00002000000000000000000000000000000000000000000000000000000000000000000000000004 went 2
word 0 void part-count 2 0
word 00002000000000000000000000000000000000000000000000000000000000000000000000000004 went 2
word 00003000000000000000000000000000000000000000000000000000000000000000000000000001 void part-count 2 3"
}

fn worked_3() -> &'static str {
    "title a disturbed mean outside of the range of the group
word 00003000000000000000000000000000000000000000000000000000000000000000000000000009 went 3
word 00002000000000000000000000000000000000000000000000000000000000000000000000000009 went 4
call 0 yes
call 3 yes
call 4 no
word 00001000000000000000000000000000000000000000000000000000000000000000000000000004 ended
leaf 4 1 0 3
leaf 5 1 5 3
leaf 0 1 4 ffffffffffffffffffffffffffffff
word 00003000000000000000000000000000000000000000000000000000000000000000000000000009 went 3
word 00001000000000000000000000000000000000000000000000000000000000000000000000000009 went 0
leaf 9 1 0 3
call 0 no
call 4 no
word 00001 ended
leaf 0 1 4 0
leaf 0 1 4 ffffffffffffffffffffffffffffff"
}

fn worked_4() -> &'static str {
    "title words that break several checks
word 00002000000000000000000000000000000000000000000000000000000000000000000000000005 went 2
word 1000000000000000000000000000000000000000000000000000000000000000000000000001 void count 65536
word 00002000000000000000000000000000000000000000000000000000000000000000000000000005 went 2
word 00000000000000000000000000000000000000000000000000000000000000000000000000000001 void limb 15 1
word 00002000000000000000000000000000000000000000000000000000000000000000000000000005 went 2
word 000030000000000000000000000000000000000000000000000000000000000000000000000002fe void limb 15 766
word 00002000000000000000000000000000000000000000000000000000000000000000000000000005 went 2
word 00003000000000000000000000000000000000000000000000000000000000000000000000000006 void part-count 2 3
word 00002000000000000000000000000000000000000000000000000000000000000000000000000005 went 2
word 0 void part-count 2 0
word 00002000000000000000000000000000000000000000000000000000000000000000000000000005 went 2
word 00001000000000000000000000000000000000000000000000000000000000000000000000000006 void part-limb 15 5 6
word 0000200000000000000000000000000000000000000000000000000000000000000000000000012c went 96
word 0000100000000000000000000000000000000000000000000000000000000000000000000000002c void part-limb 15 300 44
word 00002000000000000000000000000000000000000000000000000000000000000000000000000005 went 2
word 00002000000000000000000000000000000000000000000000000000000000000000000000000004 void part-limb 15 5 4
word 00002000000000000000000000000000000000000000000000000000000000000000000000000005 went 2
word 00002000000000000000000000000000000000000000000000000000000000000000000000000005 void uneven 15 5"
}

fn worked_5() -> &'static str {
    "title void after leaves
word 00003000000000000000000000000000000000000000000000000000000000000000000000000007 went 2
word 00001000000000000000000000000000000000000000000000000000000000000000000000000001 went 3
leaf 1 1 0 2
word 0 void part-count 2 0"
}

/// Epochs of an independent implementation.
fn other_0() -> &'static str {
    "title no station sends
word 0 ended"
}

fn other_1() -> &'static str {
    "title one station sends
word 00001000df00092000f40000a00091000770002100055000b7000150005b00027000e2000b70007c ended
leaf df92f40a91772155b7155b27e2b77c 1 0 ffffffffffffffffffffffffffffff"
}

fn other_2() -> &'static str {
    "title two stations send the same
word 00002 went 0
word 00002 ended
leaf 0 2 0 ffffffffffffffffffffffffffffff"
}

fn other_3() -> &'static str {
    "title four values, two leaves at one word
word 000040020a0018d002760015c001b1001490027b0021d001fe002430020f0023a0029300267001b4 went 82e3ddd76c92df47c011444f255a2d
word 000020007e0004d000c7000210008100046000b8000aa0003b0009000076000df000d00009000029 went 3f26e390c0a35c551dc83b6fe84814
word 00001 went c6a0d81e1882623a625a4d2e626c45
leaf 0 1 0 3f26e390c0a35c551dc83b6fe84814
leaf 7e4dc7218146b8aa3b9076dfd09029 1 3f26e390c0a35c551dc83b6fe84815 82e3ddd76c92df47c011444f255a2d
word 000010008d00041000b00003c0003100004000c400074000c4000b40009a0005c000c4000d80008c ended
leaf 8d41b03c3104c474c4b49a5cc4d88c 1 82e3ddd76c92df47c011444f255a2e c6a0d81e1882623a625a4d2e626c45
leaf ffffffffffffffffffffffffffffff 1 c6a0d81e1882623a625a4d2e626c46 ffffffffffffffffffffffffffffff"
}

fn other_4() -> &'static str {
    "title three stations send the same, and one value after them
word 000040008b0005c000c80001c000c600007000030006c000b4000f60008f000fa000e4000cb000a7 went 22d732073181c0db2d3da3feb932e9
word 000030000000000000000000000000000000000000000000000000000000000000000000003 went 100
word 000030000000000000000000000000000000000000000000000000000000000000000000003 ended
leaf 100 3 0 22d732073181c0db2d3da3feb932e9
leaf 8b5cc81cc607036cb4f68ffae4c8a7 1 22d732073181c0db2d3da3feb932ea ffffffffffffffffffffffffffffff"
}

fn other_5() -> &'static str {
    "title six values, all leaves at the last word
word 00006000ea001c40010c0011300174000fa001250008600145000a30004f000760010a0014500186 went 274b822e137f30ebe0f08d3e81e116
word 0000500001000e9000300006d000a3000a7000d800051000e9000440001900031000ea0009c000ed went 61d67c53ee5e76c840d1d6c885c9
word 00004000000000000000000000000000000000000000000000000000000000000000000000100003 went 40
word 00003000000000000000000000000000000000000000000000000000000000000000000000000003 went 1
word 00002 went 0
word 00002 ended
leaf 0 2 0 1
leaf 3 1 2 40
leaf 100 1 41 61d67c53ee5e76c840d1d6c885c9
leaf 1e9306da3a7d851e9441931ea9bea 1 61d67c53ee5e76c840d1d6c885ca 274b822e137f30ebe0f08d3e81e116
leaf e9dbdca6d1534d355c5f364520a999 1 274b822e137f30ebe0f08d3e81e117 ffffffffffffffffffffffffffffff"
}

fn other_6() -> &'static str {
    "title a value sent twice between others
word 00006000ed001540004f00159000f5000b80005e000b700042000be00101000ef00086000d100121 went 27b8b80efe49651e8b1fd5a7ebcdb0
word 00004000000000000000000000000000000000000000000000000000000000000000000000200003 went 80
word 00002000000000000000000000000000000000000000000000000000000000000000000000000003 went 1
word 00001 went 100
leaf 0 1 0 1
leaf 3 1 2 80
word 000020000000000000000000000000000000000000000000000000000000000000000000002 went 772a282cfadc2f5ba15f80f7c3680f
leaf 100 2 81 27b8b80efe49651e8b1fd5a7ebcdb0
word 0000100063000e100038000b1000d600078000270009c000010007b000a6000740003d0005800058 ended
leaf 63e138b1d678279c017ba6743d5858 1 27b8b80efe49651e8b1fd5a7ebcdb1 772a282cfadc2f5ba15f80f7c3680f
leaf 8a7317a81f40371b41435b7b4977c6 1 772a282cfadc2f5ba15f80f7c36810 ffffffffffffffffffffffffffffff"
}

fn other_7() -> &'static str {
    "title a root of too many stations
word 0ff00000b0000ec000ac000070001800074000e30008f000780009700062000fa000cc0006b000dd void count 65280"
}

fn other_8() -> &'static str {
    "title a limb that no value has
word 00006003c4001650018a0026200298001d70027100103000f90023a003b900266002000023100167 went a0e66cbb6ef99300a9df9f3c005dbb
word 0000200000000000000000000000000000000000000000000000000000000000000000000001 void limb 15 65536"
}

fn other_9() -> &'static str {
    "title a limb above that of the whole
word 000030009700093000520004500009000db000e800072000e20004c000d1000bf000da00049000ba went 328670c1adf3f8264b6ef09548c33e
word 00002001000000000000000000000000000000000000000000000000000000000000000000000006 void part-limb 1 151 256"
}

fn other_10() -> &'static str {
    "title a limb above that of a part
word 00006001d10023a0024b0025600209002ad001e7002850020a00125002c20029c00209001ce00239 went 4ddf62395747d19681dbf61a5722b4
word 0000400009000e4000cc000e4000df000cb000cf000f4000c20001e000fb000aa000c6000cb000da went 279333937f2f3fd3087beeab1b2f6
word 00003000000000000000000000000000000000000000000000000ff0000000000000000000000001 void part-limb 10 30 255"
}

fn other_11() -> &'static str {
    "title a limb that two stations cannot have sent
word 0000200160000d300061001a10006600160001820013600196000ab001220006100125000eb0011 went b069b150b3b0c19bcb56113112f608
word 0000200160000d300061001a10006600160001820013600196000ab001220006100125000eb0011 void uneven 2 211"
}

fn other_12() -> &'static str {
    "title the same before another station
word 00003000ff000ff000ff000ff000ff000ff000ff000ff000ff000ff000ff000ff000ff00100000ff went 5555555555555555555555555555aa
word 000020000000000000000000000000000000000000000000000000000000000000000000001 went 80
word 000020000000000000000000000000000000000000000000000000000000000000000000001 void uneven 14 1"
}
