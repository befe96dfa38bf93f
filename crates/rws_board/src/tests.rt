//! What no contract says: that calls succeed with ample memory.
use super::*;
use rws_pool::PoolCall;
use rws_wire::{DropCause, Text};
use std::test::Fail;

#[test]
fn a_sink_in_memory_takes_what_fits(rt: HostRuntime) -> Result<(), Fail> {
    let alloc = rt.alloc();
    let mut sink = MemSink::new(alloc, 5, CallList::from_slice(alloc, &[1])?)?;
    assert_eq!(rt; sink.put(b"abc"), Ok(()));
    assert_eq!(rt; sink.put(b"d"), Err(Failed));
    assert_eq!(rt; sink.put(b"def"), Err(Failed));
    assert_eq!(rt; sink.put(b"de"), Ok(()));
    assert_eq!(rt; sink.as_slice(), b"abcde".as_slice());
    Ok(())
}

#[test]
fn a_full_writer_is_a_fault(rt: HostRuntime) {
    let mut bytes = [0; 3];
    let mut sink = WriteSink::new(bytes.as_mut_slice());
    assert_eq!(rt; sink.put(b"ab"), Ok(()));
    assert_eq!(rt; sink.put(b"cd"), Err(Failed));
}

#[test]
fn a_board_in_memory_remembers_what_it_did(rt: HostRuntime) -> Result<(), Fail> {
    let alloc = rt.alloc();
    let mut events = EventList::new(alloc);
    events.push(Event::LinkGone { link: 1 })?;
    let mut board = ListBoard::new(alloc, events, CallList::from_slice(alloc, &[3])?)?;
    assert_eq!(rt; board.next(0), Ok(Event::LinkGone { link: 1 }));
    let cause = DropCause::End;
    assert_eq!(rt; board.act(Action::Drop { link: 1, cause }), Ok(()));
    assert_eq!(rt; board.tell(&PoolCall::Route { session: 1 }), Ok(()));
    assert_eq!(rt; board.next(0), Err(BoardFault::Failed));
    assert_eq!(rt; board.interactions().len(), 3);
    Ok(())
}

#[test]
fn files_in_memory_are_read_by_their_paths(rt: HostRuntime) -> Result<(), Fail> {
    let alloc = rt.alloc();
    let mut list = FileList::new(alloc);
    list.push(
        Text::from_slice(alloc, b"a")?,
        Text::from_slice(alloc, b"one")?,
    )?;
    list.push(
        Text::from_slice(alloc, b"b")?,
        Text::from_slice(alloc, b"two")?,
    )?;
    let mut files = MemFiles::new(list, CallList::from_slice(alloc, &[2])?);
    let text = files.read(alloc, "b")?;
    assert_eq!(rt; text.as_slice(), b"two".as_slice());
    assert!(rt; matches!(files.read(alloc, "c"), Err(FileFault::Failed)));
    assert!(rt; matches!(files.read(alloc, "a"), Err(FileFault::Failed)));
    let text = files.read(alloc, "a")?;
    assert_eq!(rt; text.as_slice(), b"one".as_slice());
    Ok(())
}

#[test]
fn a_file_that_is_not_there_is_a_fault(rt: HostRuntime) {
    let mut files = SystemFiles::new(&rt);
    assert!(rt;
        matches!(
            files.read(rt.alloc(), "there is no such file"),
            Err(FileFault::Failed)
        )
    );
}
