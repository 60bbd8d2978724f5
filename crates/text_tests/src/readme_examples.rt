//! The examples that the READMEs of the crates quote, word for word.

use bigmin::next_in_box;
use command_line::{NoRequest, Request, requested};
use edge::{MemShelf, Shelf};
use exact_cross::Slope;
use options::{Bounds, EPS, EPS_REC};
use pgm_script::{ScriptKind, ScriptLine, parse};
use sosd_reader::read_keys;
use std::test::Fail;
use written::TextLine;
use zorder::{Region, encode, inside};

#[test]
fn bigmin_example(rt: HostRuntime) -> Result<(), Fail> {
    let low = [1, 1, 0, 0];
    let high = [2, 2, 0, 0];
    let region = Region { d: 2, low, high };
    assert_eq!(rt; next_in_box(3, &region), Some(6));
    assert_eq!(rt; next_in_box(12, &region), None);
    Ok(())
}

#[test]
fn zorder_example(rt: HostRuntime) -> Result<(), Fail> {
    let code = encode(2, &[5, 3]);
    assert_eq!(rt; code, 27);
    let low = [0, 0, 0, 0];
    let high = [9, 9, 0, 0];
    assert!(rt; inside(&Region { d: 2, low, high }, code));
    Ok(())
}

#[test]
fn exact_cross_example(rt: HostRuntime) -> Result<(), Fail> {
    let steep = Slope { rise: 3, run: 10 };
    let flat = Slope { rise: 1, run: 11 };
    assert!(rt; flat.cmp(&steep).is_lt());
    Ok(())
}

#[test]
fn options_example(rt: HostRuntime) -> Result<(), Fail> {
    let bounds = Bounds {
        eps: EPS,
        eps_rec: EPS_REC,
    };
    assert_eq!(rt; (bounds.eps, bounds.eps_rec), (64, 4));
    Ok(())
}

#[test]
fn written_example(rt: HostRuntime) -> Result<(), Fail> {
    let mut line = TextLine::new();
    line.push(b"keys");
    line.push_u64(4);
    line.push(b"\n");
    assert_eq!(rt; line.as_bytes(), b"keys 4\n".as_slice());
    Ok(())
}

#[test]
fn sosd_reader_example(rt: HostRuntime) -> Result<(), Fail> {
    let bytes = b"\x02\0\0\0\0\0\0\0\x05\0\0\0\x07\0\0\0".to_vec(rt.alloc())?;
    let file = (String::from_str(rt.alloc(), "two.keys")?, bytes);
    let mut shelf = MemShelf::new(vec![in rt.alloc(); file]?, Vec::new(rt.alloc()), 4096);
    shelf.take_file("two.keys")?;
    let keys = read_keys(rt.alloc(), &mut shelf, false)?;
    assert_eq!(rt; keys.as_slice(), [5, 7].as_slice());
    Ok(())
}

#[test]
fn pgm_script_example(rt: HostRuntime) -> Result<(), Fail> {
    let lines = parse(rt.alloc(), ScriptKind::Find, b"find 7\n\nfind 9\n")?;
    let found = [ScriptLine::Find(7), ScriptLine::Find(9)];
    assert_eq!(rt; lines.as_slice(), found.as_slice());
    Ok(())
}

#[test]
fn edge_example(rt: HostRuntime) -> Result<(), Fail> {
    let file = (
        String::from_str(rt.alloc(), "seven")?,
        b"\x07".to_vec(rt.alloc())?,
    );
    let mut shelf = MemShelf::new(vec![in rt.alloc(); file]?, Vec::new(rt.alloc()), 1);
    shelf.take_file("seven")?;
    let mut buffer = [0u8; 4];
    assert_eq!(rt; shelf.read(&mut buffer)?, 1);
    assert_eq!(rt; buffer[0], 7);
    Ok(())
}

#[test]
fn command_line_example(rt: HostRuntime) -> Result<(), Fail> {
    let mut words = Vec::new(rt.alloc());
    for word in ["pgmtool", "explain", "four.keys", "--eps=3"] {
        words.push(String::from_str(rt.alloc(), word)?)?;
    }
    let eps = match requested(rt.alloc(), &words) {
        Ok(Request::Explain { building }) => Some(building.bounds.eps),
        Ok(_) | Err(NoRequest::Usage | NoRequest::NoMemory) => None,
    };
    assert_eq!(rt; eps, Some(3));
    Ok(())
}
