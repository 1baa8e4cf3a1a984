//! Values and groups, as an independent implementation finds them.

use dc_field::{BadGroup, BadSplit, Group, Value, Word, read_word_text};
use std::process::Abort;
use std::test::Fail;

/// The word of eighty digits.
fn word(text: &str) -> Result<Word, Fail> {
    Ok(read_word_text(text.as_bytes()).ok().ok_or("it is a word")?)
}

/// The group of eighty digits.
fn group(text: &str) -> Result<Group, Fail> {
    Ok(Group::of_word(&word(text)?).ok().ok_or("it is a group")?)
}

/// Whether a group has the count and the limbs of a word.
fn is_of(group: &Group, w: &Word) -> bool {
    let numbers = w.numbers();
    if u32::from(group.count()) != numbers[0] {
        return false;
    }
    for l in 1..16 {
        if u32::from(group.limb(l)) != numbers[l] {
            return false;
        }
    }
    true
}

/// A word that is to be a group of this total, mean and number of its equal value.
fn check_group(
    text: &str,
    total: u128,
    mean: Option<u128>,
    equal: Option<u128>,
) -> Result<(), Fail> {
    let group = group(text)?;
    if !is_of(&group, &word(text)?) || group.total() != total || group.mean() != mean {
        return Err("another group")?;
    }
    if group.equal_value().map(|v: Value| -> u128 { v.number() }) != equal {
        return Err("another equal value")?;
    }
    Ok(())
}

/// A word that is to be no group by this fault.
fn check_fault(text: &str, due: BadGroup) -> Result<(), Fail> {
    match Group::of_word(&word(text)?) {
        Err(fault) if fault == due => Ok(()),
        _ => Err("another answer")?,
    }
}

/// A whole and a part, and what is to be left.
fn check_rest(whole: &str, part: &str, rest: &str) -> Result<(), Fail> {
    let left = group(whole)?
        .minus(&group(part)?)
        .ok()
        .ok_or("it is a part")?;
    if is_of(&left, &word(rest)?) {
        Ok(())
    } else {
        Err("another rest")?
    }
}

/// A whole and what is to be no part of it by this fault.
fn check_unlike(whole: &str, part: &str, due: BadSplit) -> Result<(), Fail> {
    match group(whole)?.minus(&group(part)?) {
        Err(fault) if fault == due => Ok(()),
        _ => Err("another answer")?,
    }
}

/// Asserts which value a number is.
fn is_value<R: Abort>(rt: &R, x: u128, due: Option<Value>) {
    assert_eq!(rt; Value::of_number(x) == due, true, "at {x}");
}

#[test]
fn values(rt: HostRuntime) -> Result<(), Fail> {
    let short = Value {
        bytes: [1, 0, 0, 0, 0, 0, 0, 0, 0, 0, 0, 0, 0, 2, 3],
    };
    is_value(&rt, 0, Some(Value { bytes: [0; 15] }));
    is_value(&rt, 5192296858534827628530496329220611, Some(short));
    is_value(
        &rt,
        1329227995784915872903807060280344575,
        Some(Value { bytes: [255; 15] }),
    );
    is_value(&rt, 1329227995784915872903807060280344576, None);
    assert_eq!(rt; short.number(), 5192296858534827628530496329220611);
    let due = word(
        "00100001000000000000000000000000000000000000000000000000000000000000000020000300",
    )?;
    assert_eq!(rt;
        short.to_word(256).numbers().as_slice(),
        due.numbers().as_slice()
    );
    Ok(())
}

#[test]
fn groups() -> Result<(), Fail> {
    check_group(
        "0000300286000000016e0000000000000000000000000002fd000a0002fd002fd002fd002fd00192",
        3354252768120978868993767443340983954,
        Some(1118084256040326289664589147780327984),
        None,
    )?;
    check_group(
        "001000a76d0ff0004c2605f26000000a66402ae800000000000000003d2d00000071df08bc704395",
        223872623365024906870782400573278456469,
        Some(874502435019628542463993752239368970),
        None,
    )?;
    check_group(
        "00000000000000000000000000000000000000000000000000000000000000000000000000000000",
        0,
        None,
        None,
    )?;
    check_group(
        "0000500313004800000f004fb00000004fb00000004fb000000035000436004fb004fb0000000000",
        4109704546552162413301942605147996160,
        Some(821940909310432482660388521029599232),
        None,
    )
}

#[test]
fn groups_of_equal_values() -> Result<(), Fail> {
    check_group(
        "0000100000000ff000ff000260000000000000170002e000110000000000000ff0009000056000ff",
        5192229390803114169853614283052799,
        Some(5192229390803114169853614283052799),
        Some(0x00ffff260000172e110000ff9056ff),
    )?;
    check_group(
        "00006005fa005fa005fa005fa005fa005fa005fa005fa005fa005fa005fa005fa005fa005fa005fa",
        7975367974709495237422842361682067450,
        Some(1329227995784915872903807060280344575),
        Some(0xffffffffffffffffffffffffffffff),
    )
}

#[test]
fn words_that_are_no_groups() -> Result<(), Fail> {
    check_fault(
        "00001000ff0000000075000ff0010100000000d000000000ff000ff0003e000ff000ff000ff00000",
        BadGroup::Limb { l: 5, seen: 257 },
    )?;
    check_fault(
        "10000004fb004fb002050000000000004fb004fb00000004fb004fb0014800128001f100000004fb",
        BadGroup::Count { seen: 65536 },
    )?;
    check_fault(
        "00001000000005f100000000000000000d1000e3000af000ff000ce000ff00000000ff000bc000ff",
        BadGroup::Limb { l: 3, seen: 65536 },
    )
}

#[test]
fn splits() -> Result<(), Fail> {
    check_rest(
        "00007002430045c006f90000000000006f90000000000006f9000000057400622000000021c00000",
        "0000600188003d3005fa0000000000005fa0000000000005fa00000004df0053200000001a800000",
        "00001000bb00089000ff0000000000000ff0000000000000ff0000000095000f0000000007400000",
    )?;
    check_rest(
        "00003002d9000a800000002e300000001a900086000a7002fd00218002fd002fd002880024900000",
        "00002001e10001300000001fd00000001420003900012001fe001dc001fe001fe001fb001f800000",
        "00001000f80009500000000e600000000670004d00095000ff0003c000ff000ff0008d0005100000",
    )?;
    check_rest(
        "00007000000066500000006f90052700000006f900142006f9002350001000000003990046c00000",
        "0000200000001fd00000001fe0019d00000001fe000eb001fe0008e0000a00000001590018800000",
        "00005000000046800000004fb0038a00000004fb00057004fb001a7000060000000240002e400000",
    )
}

#[test]
fn groups_that_are_no_parts() -> Result<(), Fail> {
    check_unlike(
        "0000300000002fd002fd000cf002fd001bf000f100056002fd002fd00000002fd0000000000000d7",
        "00000000000000000000000000000000000000000000000000000000000000000000000000000000",
        BadSplit::Count { whole: 3, part: 0 },
    )?;
    check_unlike(
        "000020000000124001d40000000051001fe001fe000000016900182000ee001fe000ad001fe001fe",
        "000030000000124001d40000000051001fe001fe000000016900182000ee001fe000ad001fe001fe",
        BadSplit::Count { whole: 2, part: 3 },
    )?;
    check_unlike(
        "00100000000ff000a2f0032f0000000b3d50a8bd0000000000000000abcb0ff000ff00000000bec5",
        "000da000000d926097a302788000000b0680992d0000000000000000aaa50d9260d926000280b678",
        BadSplit::Limb {
            l: 14,
            whole: 0,
            part: 40,
        },
    )?;
    check_unlike(
        "00100000000a5130ff000ff000ff00090ee0ff0005b16000000ff0000000000000bb8c0ff000c155",
        "00010000000067900ff000ff000ff0000b800ff00059d0000000fef0000000000008b400ff000842",
        BadSplit::Limb {
            l: 10,
            whole: 65280,
            part: 4079,
        },
    )
}
