//! Lines whose texts two reference programs give.

use ams_value::{Val, ValueType};
use commit_trace::{VALUE_ROOM, header, last, line, value_text};
use fix_core::{Fix, Tick};
use flat_design::{Enumeration, Flat, Node, Objects, Quantity, QuantityKind, Signal, Threshold};
use flat_expr::Constraint;
use sqlite_items::Items;
use std::alloc::{AllocError, Global};
use std::process::Abort;
use std::test::Fail;
use step_data::{BreakList, Element, End, Event, Options, Point, Refusal, Text};

fn fixed(units: i64) -> Fix {
    Fix::exactly(i128::from(units))
}

fn push_quantity(
    alloc: Global,
    quantities: &mut Items<Quantity>,
    path: &str,
) -> Result<(), AllocError> {
    let path = Items::from_slice(alloc, path.as_bytes())?;
    quantities.push(Quantity {
        path,
        kind: QuantityKind::Free,
        initial: fixed(0),
    })
}

fn quantities(alloc: Global) -> Result<Items<Quantity>, AllocError> {
    let mut quantities = Items::new(alloc);
    for path in ["e.w", "e.k", "e.m", "e.h", "e.u.v", "e.u.c"] {
        push_quantity(alloc, &mut quantities, path)?;
    }
    Ok(quantities)
}

fn push_signal(alloc: Global, signals: &mut Items<Signal>, path: &str) -> Result<(), AllocError> {
    let path = Items::from_slice(alloc, path.as_bytes())?;
    signals.push(Signal {
        path,
        kind: ValueType::Bit,
        constraint: Constraint::Whole,
        initial: Val::Bit(false),
    })
}

fn signals(alloc: Global) -> Result<Items<Signal>, AllocError> {
    let mut signals = Items::new(alloc);
    for path in ["e.a", "e.f", "e.u.s"] {
        push_signal(alloc, &mut signals, path)?;
    }
    Ok(signals)
}

fn nodes(alloc: Global) -> Result<Items<Node>, AllocError> {
    let mut nodes = Items::new(alloc);
    let path = Items::from_slice(alloc, b"e.n")?;
    nodes.push(Node { path })?;
    Ok(nodes)
}

/// The header of a design with these objects.
fn push_header(
    rt: &impl Abort,
    alloc: Global,
    objects: Objects,
    options: &Options,
    out: &mut Vec<u8>,
) -> Result<(), AllocError> {
    assert!(rt; objects.signals.len() < 10 && objects.quantities.len() < 10);
    assert!(rt; objects.nodes.len() < 10 && objects.equations.len() < 10);
    assert!(rt; objects.dots.len() < 10 && objects.thresholds.len() < 10);
    match Flat::new(alloc, objects) {
        Ok(flat) => header(&flat, "e", options, out),
        Err(fault) => Err(fault),
    }
}

/// A design with every class of object that has a line.
fn push_all_classes(
    rt: &impl Abort,
    alloc: Global,
    options: &Options,
    out: &mut Vec<u8>,
) -> Result<(), AllocError> {
    let threshold = Threshold {
        quantity: 3,
        level: fixed(2_000_000_000_000),
    };
    let dots = Items::from_slice(alloc, &[3])?;
    let thresholds = Items::from_slice(alloc, &[threshold])?;
    let nodes = nodes(alloc)?;
    let quantities = quantities(alloc)?;
    let signals = signals(alloc)?;
    let objects = Objects {
        signals,
        quantities,
        nodes,
        equations: Items::new(alloc),
        dots,
        thresholds,
        processes: Items::new(alloc),
        instances: Items::new(alloc),
        enumerations: Items::new(alloc),
        ramps: Items::new(alloc),
    };
    push_header(rt, alloc, objects, options, out)
}

#[test]
fn a_header_names_each_object(rt: HostRuntime) -> Result<(), Fail> {
    let options = Options {
        stop: Tick::new(1).ok_or("no tick")?,
        ahead: 64,
        h0: 1000,
        hmin: 1,
        hmax: 1_000_000,
        tol: 1_000_000,
        ltol: 1_000_000_000,
        xres: 1,
    };
    let mut out = Vec::new(rt.alloc());
    push_all_classes(&rt, rt.alloc(), &options, &mut out)?;
    let want = "A 2 e 1 1000 1 1000000 1000000 1000000000 1\n\
        U 0 e.w\nU 1 e.k\nU 2 e.m\nU 3 e.h\nU 4 e.u.v\nU 5 e.u.c\nU 6 e.n'reference\nU 7 e.h'dot\n\
        N 0 e.a\nN 1 e.f\nN 2 e.u.s\nV 0 3 2.0\n";
    assert_eq!(rt; out.as_slice(), want.as_bytes());
    Ok(())
}

fn push_point(
    rt: &impl Abort,
    alloc: Global,
    t: Tick,
    units: &[i64],
    out: &mut Vec<u8>,
) -> Result<(), AllocError> {
    let values: Vec<Fix> = units.iter().map(|unit| fixed(*unit)).collect(alloc)?;
    let mut x = Point::new(alloc, units.len())?;
    assert!(rt; x.len() == values.len());
    x.copy_from_slice(values.as_slice());
    line(&Event::Solved { t, n: 0, x }, &[], out)
}

#[test]
fn a_point_has_a_value_for_each_unknown(rt: HostRuntime) -> Result<(), Fail> {
    let t = Tick::new(1000).ok_or("no tick")?;
    let units = [
        5_000_000_000_000,
        -4_995_004_995,
        4_995_004_995_000,
        0,
        4_995_004_995_004_995_005,
    ];
    let mut out = Vec::new(rt.alloc());
    push_point(&rt, rt.alloc(), t, &units, &mut out)?;
    let want = "P 1000 0 5.0 -0.004995004995 4.995004995 0.0 4995004.995004995005\n";
    assert_eq!(rt; out.as_slice(), want.as_bytes());
    Ok(())
}

fn push_break(
    alloc: Global,
    t: Tick,
    elements: [Element; 2],
    out: &mut Vec<u8>,
) -> Result<(), AllocError> {
    let mut list = BreakList::new(alloc);
    list.push(elements[0])?;
    list.push(elements[1])?;
    line(&Event::Broke { t, n: 0, list }, &[], out)
}

#[test]
fn a_break_has_its_elements(rt: HostRuntime) -> Result<(), Fail> {
    let t = Tick::new(0).ok_or("no tick")?;
    let first = Element {
        selector: 0,
        quantity: 1,
        value: fixed(1_000_000_000_000),
    };
    let second = Element {
        selector: 1,
        quantity: 0,
        value: fixed(2_000_000_000_000),
    };
    let mut out = Vec::new(rt.alloc());
    push_break(rt.alloc(), t, [first, second], &mut out)?;
    assert_eq!(rt; out.as_slice(), "B 0 0 0 1 1.0 1 0 2.0\n".as_bytes());
    Ok(())
}

fn push_report(alloc: Global, t: Tick, out: &mut Vec<u8>) -> Result<(), AllocError> {
    let mut text = Text::new(alloc);
    for byte in b"Assertion violation." {
        text.push(*byte)?;
    }
    let (n, severity) = (0, 3);
    line(
        &Event::Report {
            t,
            n,
            severity,
            text,
        },
        &[],
        out,
    )
}

#[test]
fn a_report_has_its_severity(rt: HostRuntime) -> Result<(), Fail> {
    let t = Tick::new(0).ok_or("no tick")?;
    let mut out = Vec::new(rt.alloc());
    push_report(rt.alloc(), t, &mut out)?;
    assert_eq!(rt;
        out.as_slice(),
        "R 0 0 failure Assertion violation.\n".as_bytes()
    );
    Ok(())
}

/// The line of an event that holds no list and no literal.
fn prints(rt: &impl Abort, alloc: Global, event: Event, want: &str) -> Result<(), AllocError> {
    let mut out = Vec::new(alloc);
    line(&event, &[], &mut out)?;
    assert_eq!(rt; out.as_slice(), want.as_bytes());
    Ok(())
}

fn prints_value(
    rt: &impl Abort,
    alloc: Global,
    t: Tick,
    i: u32,
    value: Val,
    want: &str,
) -> Result<(), AllocError> {
    prints(rt, alloc, Event::Signal { t, n: 1, i, value }, want)
}

#[test]
fn crossings_domains_and_branches_have_lines(rt: HostRuntime) -> Result<(), Fail> {
    let alloc = rt.alloc();
    let t = Tick::new(500_001).ok_or("no tick")?;
    let (n, k, on) = (0, 0, true);
    prints(
        &rt,
        alloc,
        Event::Cross { t, n, k, on },
        "X 500001 0 0 true\n",
    )?;
    let t = Tick::new(0).ok_or("no tick")?;
    prints(&rt, alloc, Event::Domain { t, n: 2 }, "D 0 2\n")?;
    let (n, k, b) = (1, 0, 1);
    prints(&rt, alloc, Event::Branch { t, n, k, b }, "C 0 1 0 1\n")?;
    Ok(())
}

#[test]
fn values_print_by_their_types(rt: HostRuntime) -> Result<(), Fail> {
    let alloc = rt.alloc();
    let t = Tick::new(1000).ok_or("no tick")?;
    let greatest = Fix::exactly(1_000_000_000_000_000_000_000_000);
    prints_value(
        &rt,
        alloc,
        t,
        1,
        Val::Int(-2_147_483_647),
        "S 1000 1 1 -2147483647\n",
    )?;
    prints_value(
        &rt,
        alloc,
        t,
        2,
        Val::Real(greatest),
        "S 1000 1 2 1000000000000.0\n",
    )?;
    prints_value(&rt, alloc, t, 4, Val::Bits(4, 1), "S 1000 1 4 0001\n")?;
    let late = Val::Time(997_200_000_000_000_000);
    prints_value(&rt, alloc, t, 6, late, "S 1000 1 6 997200000000000000\n")?;
    Ok(())
}

fn types(alloc: Global) -> Result<Enumeration, AllocError> {
    let mut literals = Items::new(alloc);
    for literal in ["idle", "up", "down"] {
        literals.push(Items::from_slice(alloc, literal.as_bytes())?)?;
    }
    Ok(Enumeration { literals })
}

#[test]
fn a_literal_prints_by_its_position(rt: HostRuntime) -> Result<(), Fail> {
    let t = Tick::new(5000).ok_or("no tick")?;
    let (n, i, value) = (0, 0, Val::Enum(0, 2));
    let mut out = Vec::new(rt.alloc());
    let enums = [types(rt.alloc())?];
    line(&Event::Signal { t, n, i, value }, &enums, &mut out)?;
    assert_eq!(rt; out.as_slice(), "S 5000 0 0 down\n".as_bytes());
    Ok(())
}

#[test]
fn a_text_stands_in_its_array(rt: HostRuntime) -> Result<(), Fail> {
    let mut out = [b'-'; VALUE_ROOM];
    let len = value_text(Val::Bits(4, 10), &[], &mut out);
    assert_eq!(rt; len, 4);
    assert_eq!(rt; &out[..5], "1010-".as_bytes());
    Ok(())
}

#[test]
fn refusals_and_the_stop_time_end_a_trace(rt: HostRuntime) -> Result<(), Fail> {
    let mut out = Vec::new(rt.alloc());
    let t = Tick::new(20_000).ok_or("no tick")?;
    let refusal = Refusal {
        code: 64,
        detail: Some(32),
    };
    last(&End::Refused { t, refusal }, &mut out)?;
    let t = Tick::new(3000).ok_or("no tick")?;
    let refusal = Refusal {
        code: 72,
        detail: None,
    };
    last(&End::Refused { t, refusal }, &mut out)?;
    let t = Tick::new(10_000).ok_or("no tick")?;
    last(&End::Reached(t), &mut out)?;
    let want = "F 20000 64 32\nF 3000 72\nE 10000\n";
    assert_eq!(rt; out.as_slice(), want.as_bytes());
    Ok(())
}
