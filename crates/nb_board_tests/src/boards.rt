//! Each call once, and the watch's three states.
use nb_board::Board;
use nb_poll::Poll;
use std::test::Fail;

#[test]
fn gives_a_word_exactly_above_the_start(rt: HostRuntime) -> Result<(), Fail> {
    let (_board, mut writer) = Board::new(rt.alloc(), 1)?;
    let mut reader = writer.reader()?;
    assert_eq!(rt; reader.newer(1, 0), None);
    writer.store(1, 4);
    assert_eq!(rt; reader.newer(1, 2), Some(4));
    assert_eq!(rt; reader.newer(1, 4), None);
    Ok(())
}

#[test]
fn shares_the_words_with_each_reader(rt: HostRuntime) -> Result<(), Fail> {
    let (_board, mut writer) = Board::new(rt.alloc(), 1024)?;
    writer.store(1024, 7);
    let mut first = writer.reader()?;
    let mut second = writer.reader()?;
    writer.store(3, 5);
    assert_eq!(rt; first.newer(1024, 6), Some(7));
    assert_eq!(rt; second.newer(3, 4), Some(5));
    assert_eq!(rt; second.newer(2, 0), None);
    Ok(())
}

#[test]
fn watches_one_word_and_keeps_what_it_gave(rt: HostRuntime) -> Result<(), Fail> {
    let (_board, mut writer) = Board::new(rt.alloc(), 2)?;
    let mut reader = writer.reader()?;
    writer.store(2, 3);
    let mut watch = reader.watch(2, 3);
    writer.store(1, 8);
    assert_eq!(rt; watch.newer(), None);
    writer.store(2, 7);
    assert_eq!(rt; watch.newer(), Some(7));
    writer.store(2, 9);
    assert_eq!(rt; watch.newer(), Some(7));
    let mut later = writer.reader()?;
    assert_eq!(rt; later.newer(2, 7), Some(9));
    Ok(())
}
