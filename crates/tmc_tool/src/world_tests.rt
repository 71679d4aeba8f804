//! Scripts and asks with what the standards give for them.

use crate::tests::{has, run};
use std::test::Fail;

/// A script, and parts of its report in their order.
#[derive(Clone, Copy)]
struct Row<'a> {
    script: &'a str,
    parts: &'a [&'a str],
}

/// The parts stand in the text, one behind another.
fn stand_in(text: &[u8], parts: &[&str]) -> bool {
    let mut rest = text;
    for part in parts {
        match behind(rest, part.as_bytes()) {
            Some(more) => rest = more,
            None => return false,
        }
    }
    true
}

/// What stands behind the first place of a part.
fn behind<'a>(text: &'a [u8], part: &[u8]) -> Option<&'a [u8]> {
    let at = (0..text.len()).find(|at| text[*at..].starts_with(part))?;
    text.get(at..)?.get(part.len()..)
}

#[test]
fn asks_with_a_limit(rt: HostRuntime) -> Result<(), Fail> {
    for (words, message, parts) in [
        (
            "ask 1",
            "*IDN?",
            [" limit 1 ", " bytes 1 45 outcome Limit\n", "log 2 took 1\n"],
        ),
        (
            "ask 18",
            "*IDN?",
            [
                " limit 18 ",
                " bytes 18 4558414d504c452c544d43312c302c312e30 outcome Limit\n",
                "log 2 took 18\n",
            ],
        ),
        (
            "ask 19",
            "*IDN?",
            [
                " limit 19 ",
                " bytes 19 4558414d504c452c544d43312c302c312e300a outcome Complete\n",
                "log 2 took 19\n",
            ],
        ),
        (
            "ask 5000",
            "READ? 4077",
            [" bytes 4084 2334343037370001", "up 228\n", "down 4288\n"],
        ),
        (
            "ask",
            "READ? 3994",
            [
                " bytes 4000 233433393934",
                " outcome Limit\n",
                "log 2 took 4000\n",
            ],
        ),
    ] {
        let (status, text, _) = run(rt.alloc(), words, message.as_bytes(), 64)?;
        assert_eq!(rt; status, 0, "{words:?}");
        assert!(rt; stand_in(&text, &parts), "{words:?}");
    }
    Ok(())
}

#[test]
fn asks_for_the_longest_response(rt: HostRuntime) -> Result<(), Fail> {
    let (status, text, _) = run(rt.alloc(), "ask 65535", b"READ? 60000\n", 64)?;
    assert_eq!(rt; status, 0);
    let parts = [
        " bytes 60008 23353630303030",
        " outcome Complete\n",
        "log 2 took 16384\nlog 3 took 16384\nlog 4 took 16384\nlog 5 took 10856\n",
        "up 1176\n",
        "down 61160\n",
    ];
    assert!(rt; stand_in(&text, &parts));
    Ok(())
}

/// A response that is cut at its limit, and a query behind it.
const CUT: Row<'_> = Row {
    script: "ask 0 18 2a49444e3f\nrest\nask 0 200 2a4553523f\nrest\n",
    parts: &[
        "event 1 ticket 1\nevent 2 ok\nevent 3 ticket 2\nevent 4 ok\nhub running\n",
        " bytes 18 4558414d504c452c544d43312c302c312e30 outcome Limit\nticket 2 session 0 ask limit 200 last 4 ",
        " bytes 4 3133320a outcome Complete\n",
        "log 1 exec 1 2a49444e3f\nlog 2 took 18\nlog 3 interrupt\nlog 4 exec 4 2a4553523f\nlog 5 took 4\nup ",
    ],
};

/// An instrument that is unplugged with three tickets live.
const UNPLUGGED: Row<'_> = Row {
    script: "ask 0 200 2a4f50433f\nask 1 200 2a4f50433f\ntell 2 434f4e462033\nup 9999\nunplug\ndown 9999\nask 0 200 2a4f50433f",
    parts: &[
        "event 7 refused Down Unplugged\nhub ended Unplugged\nservice 0 -\n",
        "ticket 1 session 0 ask limit 200 last 1 message 5 2a4f50433f bytes 0 - outcome Unplugged\n",
        "ticket 2 session 1 ask limit 200 last 0 message 5 2a4f50433f bytes 0 - outcome Unplugged\n",
        "ticket 3 session 2 tell limit 0 last 0 message 6 434f4e462033 bytes 0 - outcome Unplugged\n",
        "up 68\n",
    ],
};

/// No event.
const NONE: Row<'_> = Row {
    script: "",
    parts: &["hub running\nservice 0 -\nup 0\ndown 0\n"],
};

/// Asks that are refused, and one with the greatest first number that is not.
const NO_LIMIT: Row<'_> = Row {
    script: "ask 0 0 2a4f50433f",
    parts: &["event 1 refused BadLimit\nhub running\nservice 0 -\nup 0\ndown 0\n"],
};

const NO_SESSION: Row<'_> = Row {
    script: "ask 16 5 2a4f50433f",
    parts: &["event 1 refused NoSession\n"],
};

const NO_NUMBER: Row<'_> = Row {
    script: "first 4294962946\nask 0 5 2a4f50433f",
    parts: &["event 1 refused Exhausted\n"],
};

const LAST_NUMBER: Row<'_> = Row {
    script: "first 4294962945\nask 0 5 2a4f50433f\nrest",
    parts: &[
        "event 1 ticket 1\nevent 2 ok\n",
        " last 4294962945 message 5 2a4f50433f bytes 2 310a outcome Complete\n",
        "log 1 exec 4294962945 2a4f50433f\n",
    ],
};

/// A send that fails.
const FAILED: Row<'_> = Row {
    script: "ask 0 5 2a4f50433f\nfail send\nup 9",
    parts: &[
        "event 1 ticket 1\nevent 2 ok\nevent 3 ok\nhub ended LinkFault\n",
        " bytes 0 - outcome LinkFault\n",
        "up 0\n",
    ],
};

/// Events that are not enabled.
const IDLE: Row<'_> = Row {
    script: "depth 1\nup 1\ndown 1\ntake 1\nexec\nnotify\nhalt 3\nhalt 3\ngiveup\nup 1\nrest\n",
    parts: &[
        "event 1 not-enabled\nevent 2 not-enabled\nevent 3 not-enabled\nevent 4 not-enabled\nevent 5 not-enabled\n",
        "event 6 ok\nevent 7 not-enabled\nevent 8 ok\nevent 9 not-enabled\nevent 10 ok\nhub ended GivenUp\n",
    ],
};

#[test]
fn replays_a_script(rt: HostRuntime) -> Result<(), Fail> {
    for row in [
        CUT,
        UNPLUGGED,
        NONE,
        NO_LIMIT,
        NO_SESSION,
        NO_NUMBER,
        LAST_NUMBER,
        FAILED,
        IDLE,
    ] {
        let script = row.script;
        let (status, text, _) = run(rt.alloc(), "replay", script.as_bytes(), 4_096)?;
        assert_eq!(rt; status, 0, "{script:?}");
        assert!(rt; stand_in(&text, row.parts), "{script:?}");
    }
    Ok(())
}

/// A query whose bytes cross the link one at a time.
const SINGLY: [(&str, usize); 11] = [
    ("ask 0 200 2a49444e3f\n", 1),
    ("up 1\n", 68),
    ("take 9\nexec\n", 1),
    ("down 1\n", 48),
    ("up 1\n", 60),
    ("take 9\n", 1),
    ("down 1\n", 48),
    ("up 1\n", 48),
    ("begin 999\n", 1),
    ("fill 9\n", 1),
    ("down 1\n", 80),
];

#[test]
fn replays_a_query_byte_by_byte(rt: HostRuntime) -> Result<(), Fail> {
    let alloc = rt.alloc();
    let mut script = Vec::new(alloc);
    for (line, count) in SINGLY {
        for _ in 0..count {
            script.extend_from_slice(line.as_bytes())?;
        }
    }
    let (status, text, _) = run(alloc, "replay", &script, 7)?;
    assert_eq!(rt; status, 0);
    assert!(rt; !has(&text, b"not-enabled"));
    let parts = [
        "event 1 ticket 1\nevent 2 ok\n",
        "event 358 ok\nhub running\n",
        " bytes 19 4558414d504c452c544d43312c302c312e300a outcome Complete\n",
        "up 176\n",
        "down 176\n",
    ];
    assert!(rt; stand_in(&text, &parts));
    Ok(())
}

#[test]
fn refuses_a_line_of_events(rt: HostRuntime) -> Result<(), Fail> {
    for (script, want) in [
        ("hop", "refused line 1 Unknown\n"),
        ("up 1\nup\n", "refused line 2 Words\n"),
        ("up 0", "refused line 1 Number\n"),
        ("rest\nfirst 2\n", "refused line 2 Unknown\n"),
        ("depth 2", "refused line 1 Depth\n"),
        ("tell 0 4\nhop\n", "refused line 1 Hex\n"),
    ] {
        let (status, text, _) = run(rt.alloc(), "replay", script.as_bytes(), 3)?;
        assert_eq!(rt; status, 2, "{script:?}");
        assert_eq!(rt; text.as_slice(), want.as_bytes(), "{script:?}");
    }
    Ok(())
}
