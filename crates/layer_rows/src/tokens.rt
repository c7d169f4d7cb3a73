//! One value of each table, and a table of names.

use ams_token::{Mark, Names, TimeUnit, Word};
use std::test::Fail;

#[test]
fn tables_find_their_texts(rt: HostRuntime) -> Result<(), Fail> {
    assert_eq!(rt; Word::find("while"), Some(Word::While));
    assert_eq!(rt; Word::find("whil"), None);
    assert_eq!(rt; Mark::find("=>"), Some(Mark::Arrow));
    assert_eq!(rt; Mark::find("!="), None);
    assert_eq!(rt; TimeUnit::find("ms"), Some(TimeUnit::Ms));
    assert_eq!(rt; TimeUnit::find("s"), None);
    Ok(())
}

#[test]
fn a_name_keeps_its_number(rt: HostRuntime) -> Result<(), Fail> {
    let mut names = Names::new(rt.alloc())?;
    assert_eq!(rt; names.number(rt.alloc(), "clk")?, 4);
    assert_eq!(rt; names.number(rt.alloc(), "dot")?, 1);
    assert_eq!(rt; names.number(rt.alloc(), "clk")?, 4);
    assert_eq!(rt; names.len(), 5);
    assert_eq!(rt; names.text(4), "clk");
    assert_eq!(rt; names.find("q"), None);
    Ok(())
}
