use crate::{Instrument, RemoteAct};
use std::test::Fail;

/// A message at power-on, its response, and what ESR is behind it.
const MESSAGES: [(&str, &[u8], &str); 28] = [
    ("*ESE 32;*ESE?;*STB?", b"32;16\n", "128\n"),
    ("*ESE 1.5;*ESE?", b"2\n", "128\n"),
    ("*ESE -1;*ESE 256;*ESE?", b"0\n", "144\n"),
    ("CONF 10;*ESR?", b"144\n", "0\n"),
    ("*ESR?;*ESR?", b"128;0\n", "0\n"),
    ("*CLS;*ESR?", b"0\n", "0\n"),
    ("*OPC;*ESR?", b"129\n", "0\n"),
    ("*OPC?;*TST?;RL?;CONF?", b"1;0;0;0\n", "128\n"),
    ("*opc?\n", b"1\n", "128\n"),
    ("*SRE 255;*SRE?", b"191\n", "128\n"),
    ("*SRE 16;*OPC?;*STB?", b"1;80\n", "128\n"),
    ("*STB?;*STB?", b"0;16\n", "128\n"),
    ("*WAI;*OPC?", b"1\n", "128\n"),
    ("CONF 7;*TRG;*RST;READ? 1;CONF?", b"#11\x00;0\n", "128\n"),
    ("*TRG;*TRG;READ? 3", b"#13\x3e\x3f\x40\n", "128\n"),
    ("CONF 3;READ? 2", b"#12\x15\x16\n", "128\n"),
    ("READ? 0", b"#10\n", "128\n"),
    ("", b"", "128\n"),
    ("A;;B", b"", "160\n"),
    ("FOO;*OPC?", b"", "160\n"),
    ("*OPC?;FOO;*TST?", b"1\n", "160\n"),
    ("*ESE", b"", "160\n"),
    ("*OPC? 1", b"", "160\n"),
    ("*IDN?;*OPC?", b"EXAMPLE,TMC1,0,1.0\n", "132\n"),
    ("*IDN?;READ? 70000;*OPC", b"EXAMPLE,TMC1,0,1.0\n", "133\n"),
    ("*IDN?;CONF? 1;*OPC", b"EXAMPLE,TMC1,0,1.0\n", "160\n"),
    ("READ? 60000;READ? 60000", b"", "132\n"),
    ("READ? 60000;READ? 60000;*ESR?;*STB?", b"", "0\n"),
];

#[test]
fn messages_have_their_responses(rt: HostRuntime) -> Result<(), Fail> {
    for (message, response, esr) in MESSAGES {
        let mut instrument = Instrument::new(rt.alloc())?;
        assert!(rt; message.len() <= 4096);
        instrument.execute(message.as_bytes())?;
        assert_eq!(rt; instrument.response(), response, "{message}");
        instrument.execute(b"*ESR?")?;
        assert_eq!(rt; instrument.response(), esr.as_bytes(), "{message}");
    }
    Ok(())
}

#[test]
fn samples_fill_the_longest_response(rt: HostRuntime) -> Result<(), Fail> {
    let mut instrument = Instrument::new(rt.alloc())?;
    instrument.execute(b"READ? 47")?;
    assert_eq!(rt; instrument.response().len(), 52);
    assert!(rt; instrument.response().starts_with(b"#247\x00\x01\x02"));
    assert!(rt; instrument.response().ends_with(b"\x2d\x2e\n"));
    instrument.execute(b"READ? 60000;READ? 5520")?;
    assert_eq!(rt; instrument.response().len(), 65_535);
    assert!(rt; instrument.response().ends_with(b"\xf8\n"));
    instrument.execute(b"READ? 60000;READ? 5521")?;
    assert_eq!(rt; instrument.response().len(), 0);
    Ok(())
}

/// A call, and the status byte behind it.
enum Call {
    Execute(&'static str),
    Poll,
    Took(usize),
    Interrupt,
    Bare,
    Trigger,
    Clear,
}

const CALLS: [(Call, u8); 17] = [
    (Call::Execute("*CLS;*SRE 48;*ESE 36"), 0),
    (Call::Execute("*OPC?"), 80),
    (Call::Poll, 16),
    (Call::Execute("FOO"), 96),
    (Call::Poll, 32),
    (Call::Execute("*OPC?"), 112),
    (Call::Poll, 48),
    (Call::Took(1), 48),
    (Call::Clear, 32),
    (Call::Execute("*CLS"), 0),
    (Call::Execute("*OPC?"), 80),
    (Call::Took(2), 0),
    (Call::Execute("*OPC?"), 80),
    (Call::Interrupt, 96),
    (Call::Bare, 96),
    (Call::Trigger, 96),
    (Call::Execute("READ? 1"), 112),
];

#[test]
fn rqs_follows_the_status_byte(rt: HostRuntime) -> Result<(), Fail> {
    let mut instrument = Instrument::new(rt.alloc())?;
    for (i, (call, status)) in CALLS.iter().enumerate() {
        match call {
            Call::Execute(message) => {
                assert!(rt; message.len() <= 4096);
                instrument.execute(message.as_bytes())?;
            }
            Call::Poll => {
                let before = instrument.status();
                assert_eq!(rt; instrument.poll_status(), before);
            }
            Call::Took(n) => {
                assert!(rt; *n <= instrument.response().len());
                instrument.took(*n);
            }
            Call::Interrupt => instrument.interrupt(),
            Call::Bare => instrument.bare(),
            Call::Trigger => instrument.trigger(),
            Call::Clear => instrument.clear(),
        }
        assert_eq!(rt; instrument.status(), *status, "call {i}");
    }
    assert_eq!(rt; instrument.response(), b"#11\x1f\n".as_slice());
    Ok(())
}

#[test]
fn each_act_changes_each_remote_state(rt: HostRuntime) -> Result<(), Fail> {
    let paths: [&[RemoteAct]; 4] = [
        &[],
        &[RemoteAct::On],
        &[RemoteAct::Lockout],
        &[RemoteAct::Lockout, RemoteAct::On],
    ];
    let acts = [
        RemoteAct::On,
        RemoteAct::Off,
        RemoteAct::GoLocal,
        RemoteAct::Lockout,
    ];
    let behind = ["1002", "1003", "3022", "3023"];
    for (path, row) in paths.iter().zip(behind) {
        for (act, number) in acts.iter().zip(row.as_bytes()) {
            let mut instrument = Instrument::new(rt.alloc())?;
            for step in *path {
                instrument.remote(*step);
            }
            instrument.remote(*act);
            instrument.execute(b"RL?")?;
            assert_eq!(rt; instrument.response(), [*number, b'\n'].as_slice());
        }
    }
    Ok(())
}
