// The listing and the refusal line.
use patch::{Patch, Refusal, ScanOrder, Setup, listing, refusal_line};
use std::alloc::AllocError;
use std::process::Abort;
use std::test::Fail;

// What was written is the text, or nothing where it did not fit; the rest of the output, all 7 before, is as it was.
fn shows(rt: &impl Abort, out: &[u8], wrote: Result<usize, Refusal>, text: &[u8]) {
    let length = match wrote {
        Ok(length) => length,
        Err(refusal) => {
            assert_eq!(rt; (refusal.number(), refusal.place()), (9, 0));
            0
        }
    };
    assert_eq!(rt; length, text.len());
    assert!(rt; out.starts_with(text));
    assert!(rt; out.iter().skip(text.len()).all(|b| *b == 7));
}

// Lists a patch of 200 codes over one input into an output of so many bytes, all 7, and compares with a text and what is left of the output.
fn prints(rt: &impl Abort, bytes: &[u8], room: usize, text: &[u8]) -> Result<(), Fail> {
    let mut out = [7; 256];
    if room > 256 {
        return Err(Fail::new("no such room"));
    }
    let setup = Setup {
        order: ScanOrder::new(),
        places: 64,
        codes: 200,
    };
    let patch = Patch::admit(bytes, &setup);
    let wrote = listing(&patch, &mut out[..room]);
    shows(rt, &out, wrote, text);
    Ok(())
}

#[test]
fn every_kind(rt: HostRuntime) -> Result<(), Fail> {
    let all = [
        1, 0, 0, 0, 0, 0, 0, 0, 1, 0, 0, 0, 2, 1, 0, 10, 3, 2, 0, 199, 4, 0, 2, 0, 0, 0, 0, 0, 4,
        0, 0, 100,
    ];
    let text = b"cell 1 input 0\ncell 2 input 0\noff 1 0 10\non 2 0 199\nout 2 0\nout 0 100\n";
    prints(&rt, &all, 256, text)?;
    prints(&rt, &all, text.len(), text)?;
    prints(&rt, &all, text.len() - 1, b"")?;
    prints(&rt, &all, 0, b"")?;
    prints(&rt, &[], 7, b"silent\n")?;
    prints(&rt, &[], 6, b"")?;
    prints(&rt, &[0, 0, 0, 0, 0, 0, 0, 0], 256, b"silent\n")?;
    // bytes that fail the check are no bytes to a window
    prints(&rt, &[9, 9, 9, 9], 256, b"silent\n")
}

// The same for a refusal's line.
fn line(rt: &impl Abort, refusal: &Refusal, room: usize, text: &[u8]) -> Result<(), Fail> {
    let mut out = [7; 64];
    if room > 64 {
        return Err(Fail::new("no such room"));
    }
    let wrote = refusal_line(refusal, &mut out[..room]);
    shows(rt, &out, wrote, text);
    Ok(())
}

#[test]
fn refusals(rt: HostRuntime) -> Result<(), Fail> {
    line(&rt, &Refusal::InputCount, 64, b"refused 1 0\n")?;
    line(&rt, &Refusal::TooManyCells, 13, b"refused 19 0\n")?;
    line(&rt, &Refusal::TooManyCells, 12, b"")?;
    line(&rt, &Refusal::ArcCode(16383), 64, b"refused 18 16383\n")?;
    line(
        &rt,
        &Refusal::UnknownMark(18446744073709551615),
        32,
        b"refused 12 18446744073709551615\n",
    )?;
    line(&rt, &Refusal::UnknownMark(18446744073709551615), 31, b"")
}

#[test]
fn words(rt: HostRuntime) -> Result<(), AllocError> {
    let refusal = Refusal::ArcCode(16383).to_string(rt.alloc())?;
    assert_eq!(rt; refusal.as_str(), "refused 18 16383");
    Ok(())
}
