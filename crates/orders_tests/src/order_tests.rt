//! Lines and texts of orders, as fitters write them and as they should not.
use master::Method;
use orders::{BadLine, Fault, Order, read_line, read_orders};
use std::alloc::Global;
use std::fmt::Write;
use std::process::Abort;
use std::test::Fail;
use wire::{LONGEST, Multiplexor};

/// Checks that an order has this address and value.
fn check_is(
    rt: &impl Abort,
    order: &Order,
    index: u16,
    subindex: u8,
    value: &[u8],
) -> Result<(), Fail> {
    assert_eq!(rt; order.multiplexor, Multiplexor { index, subindex });
    assert_eq!(rt; order.value.as_slice(), value);
    Ok(())
}

/// Checks that a line is this order.
fn check_order(
    rt: &impl Abort,
    heap: Global,
    line: &[u8],
    index: u16,
    subindex: u8,
    value: &[u8],
) -> Result<(), Fail> {
    match read_line(heap, line) {
        Ok(Some(order)) => check_is(rt, &order, index, subindex, value),
        Ok(None) => Err(Fail::new("passed over")),
        Err(fault) => Err(Fail::new(fault)),
    }
}

/// The method of the order on a line.
fn method_on(heap: Global, line: &[u8]) -> Result<Method, Fail> {
    match read_line(heap, line) {
        Ok(Some(order)) => Ok(order.method),
        Ok(None) => Err(Fail::new("passed over")),
        Err(fault) => Err(Fail::new(fault)),
    }
}

/// Checks that a line is passed over.
fn check_passed(rt: &impl Abort, heap: Global, line: &[u8]) {
    assert!(rt; matches!(read_line(heap, line), Ok(None)));
}

/// What is told of the bad lines of a text.
fn told(heap: Global, text: &[u8]) -> Result<String, Fail> {
    let mut all = String::new(heap);
    for bad in read_orders(heap, text)?.bad {
        writeln!(all, "{bad}")?;
    }
    Ok(all)
}

/// A line to 2001:00 with a number of bytes A5.
fn line_of(heap: Global, count: usize) -> Result<String, Fail> {
    let mut line = String::from_str(heap, "2001:00")?;
    for _ in 0..count {
        line.push_str(" A5")?;
    }
    Ok(line)
}

#[test]
fn orders_of_few_bytes(rt: HostRuntime) -> Result<(), Fail> {
    let heap = rt.alloc();
    check_order(&rt, heap, b"2000:01 05", 0x2000, 1, &[5])?;
    check_order(&rt, heap, b"1017:00 E8 03", 0x1017, 0, &[0xe8, 3])?;
    check_order(&rt, heap, b"FFFF:FF 00 01 02", 0xffff, 0xff, &[0, 1, 2])?;
    check_order(&rt, heap, b"0000:00 00 00 00 00", 0, 0, &[0, 0, 0, 0])?;
    check_order(
        &rt,
        heap,
        b"2001:00 01 02 03 04 05 06 07 08",
        0x2001,
        0,
        &[1, 2, 3, 4, 5, 6, 7, 8],
    )
}

#[test]
fn the_longest_order(rt: HostRuntime) -> Result<(), Fail> {
    let heap = rt.alloc();
    assert_eq!(rt; LONGEST, 1024);
    let line = line_of(heap, 1024)?;
    check_order(&rt, heap, line.as_bytes(), 0x2001, 0, &[0xa5; 1024])
}

#[test]
fn either_case_and_any_blanks(rt: HostRuntime) -> Result<(), Fail> {
    let heap = rt.alloc();
    check_order(&rt, heap, b"60fA:aB dE Ad", 0x60fa, 0xab, &[0xde, 0xad])?;
    check_order(&rt, heap, b"  \t2000:01\t05  06 \t", 0x2000, 1, &[5, 6])?;
    check_order(&rt, heap, b"2000:01 05\r", 0x2000, 1, &[5])?;
    check_order(&rt, heap, b"2000:01 05 \r", 0x2000, 1, &[5])
}

#[test]
fn methods_by_length(rt: HostRuntime) -> Result<(), Fail> {
    let heap = rt.alloc();
    for (count, method) in [
        (1, Method::Expedited),
        (4, Method::Expedited),
        (5, Method::Segmented),
        (56, Method::Segmented),
        (57, Method::Block),
        (1024, Method::Block),
    ] {
        let line = line_of(heap, count)?;
        assert_eq!(rt;
            method_on(heap, line.as_bytes())?,
            method,
            "of {count} bytes"
        );
    }
    Ok(())
}

#[test]
fn methods_by_name(rt: HostRuntime) -> Result<(), Fail> {
    let heap = rt.alloc();
    check_order(&rt, heap, b"expedited 2000:01 E8 03", 0x2000, 1, &[0xe8, 3])?;
    check_order(
        &rt,
        heap,
        b" \tblock\t2000:01  E8 03 \r",
        0x2000,
        1,
        &[0xe8, 3],
    )?;
    for (line, method) in [
        (
            b"expedited 2001:00 01 02 03 04".as_slice(),
            Method::Expedited,
        ),
        (b"segmented 2001:00 01".as_slice(), Method::Segmented),
        (b"block 2001:00 01 02 03 04 05".as_slice(), Method::Block),
    ] {
        assert_eq!(rt; method_on(heap, line)?, method);
    }
    let longest = line_of(heap, 1024)?;
    let line = format!(in heap; "segmented {longest}")?;
    assert_eq!(rt; method_on(heap, line.as_bytes())?, Method::Segmented);
    Ok(())
}

#[test]
fn names_that_are_none(rt: HostRuntime) -> Result<(), Fail> {
    let heap = rt.alloc();
    let text =
        b"Block 2000:01 05\nBLOCK 2000:01 05\nblocks 2000:01 05\nbloc 2000:01 05\nblock\nblock block 2000:01 05\n2000:01 block 05\nsegmented 2000:1 05\n";
    let reading = read_orders(heap, text)?;
    assert!(rt; reading.bad.len() == 8);
    for bad in reading.bad {
        let wanted = if bad.line == 7 {
            Fault::NotByte(1)
        } else {
            Fault::NotMultiplexor
        };
        assert_eq!(rt; bad.fault, wanted, "on line {}", bad.line);
    }
    Ok(())
}

#[test]
fn more_than_go_expedited(rt: HostRuntime) -> Result<(), Fail> {
    let heap = rt.alloc();
    let over = line_of(heap, 1025)?;
    let text = format!(in heap;
        "expedited 2001:00 01 02 03 04 05\nexpedited 2001:00 01 02 03 04 05 zz\nexpedited {over}\nexpedited 2001:00\n"
    )?;
    let words = "line 1: more than 4 bytes do not go expedited
line 2: byte 6 is not two hex digits
line 3: more than 1024 bytes follow the index and subindex
line 4: no bytes follow the index and subindex
";
    assert_eq!(rt; told(heap, text.as_bytes())?.as_str(), words);
    Ok(())
}

#[test]
fn lines_to_pass_over(rt: HostRuntime) {
    let heap = rt.alloc();
    check_passed(&rt, heap, b"");
    check_passed(&rt, heap, b"\r");
    check_passed(&rt, heap, b" \t ");
    check_passed(&rt, heap, b"# 2000:01 05");
    check_passed(&rt, heap, b"#2000:1");
}

#[test]
fn words_that_are_no_multiplexor(rt: HostRuntime) -> Result<(), Fail> {
    let heap = rt.alloc();
    let text =
        b"2000:1 05\n2000 01 05\n200:01 05\n2000:011 05\n200G:01 05\n2000;01 05\n\xc3\xa4000:01 05\n # 2000:01 05\n20000:01\n";
    let reading = read_orders(heap, text)?;
    assert!(rt; reading.bad.len() == 9);
    for bad in reading.bad {
        assert_eq!(rt; bad.fault, Fault::NotMultiplexor);
    }
    let words =
        "line 1: no IIII:SS, an index of four and a subindex of two hex digits, at the start or behind expedited, segmented or block\n";
    assert_eq!(rt; told(heap, b"2000:1 05")?.as_str(), words);
    Ok(())
}

#[test]
fn values_that_are_none(rt: HostRuntime) -> Result<(), Fail> {
    let text =
        b"2000:01\n2000:01 \r\n2000:01 5\n2000:01 05 006\n2000:01 05 06 \xff\xfe\n2000:01 05\r06\n";
    let words = "line 1: no bytes follow the index and subindex
line 2: no bytes follow the index and subindex
line 3: byte 1 is not two hex digits
line 4: byte 2 is not two hex digits
line 5: byte 3 is not two hex digits
line 6: byte 1 is not two hex digits
";
    assert_eq!(rt; told(rt.alloc(), text)?.as_str(), words);
    Ok(())
}

#[test]
fn one_byte_too_many(rt: HostRuntime) -> Result<(), Fail> {
    let heap = rt.alloc();
    let full = line_of(heap, 1024)?;
    let over = line_of(heap, 1025)?;
    let text = format!(in heap; "{over}\n{over} zz\n{full} # ramp\n")?;
    let words = "line 1: more than 1024 bytes follow the index and subindex
line 2: more than 1024 bytes follow the index and subindex
line 3: byte 1025 is not two hex digits
";
    assert_eq!(rt; told(heap, text.as_bytes())?.as_str(), words);
    Ok(())
}

#[test]
fn a_text_of_orders(rt: HostRuntime) -> Result<(), Fail> {
    let heap = rt.alloc();
    let reading = read_orders(heap, b"# ramp\r\n6083:00 10 27 00 00\r\n\r\n2000:01 05")?;
    assert!(rt; reading.orders.len() == 2);
    check_is(&rt, &reading.orders[0], 0x6083, 0, &[0x10, 0x27, 0, 0])?;
    check_is(&rt, &reading.orders[1], 0x2000, 1, &[5])?;
    assert!(rt; reading.bad.is_empty());
    Ok(())
}

#[test]
fn bad_lines_among_good_ones(rt: HostRuntime) -> Result<(), Fail> {
    let heap = rt.alloc();
    let reading = read_orders(heap, b"\n2000:1 05\n2000:01 05\n\n2000:01 05 zz\n")?;
    assert!(rt; reading.orders.len() == 1);
    assert!(rt; reading.bad.len() == 2);
    check_is(&rt, &reading.orders[0], 0x2000, 1, &[5])?;
    assert_eq!(rt;
        reading.bad[0],
        BadLine {
            line: 2,
            fault: Fault::NotMultiplexor,
        }
    );
    assert_eq!(rt;
        reading.bad[1],
        BadLine {
            line: 5,
            fault: Fault::NotByte(2),
        }
    );
    Ok(())
}

#[test]
fn a_text_of_nothing(rt: HostRuntime) -> Result<(), Fail> {
    let reading = read_orders(rt.alloc(), b"")?;
    assert!(rt; reading.orders.is_empty() && reading.bad.is_empty());
    Ok(())
}

#[test]
fn one_bad_line_keeps_all_orders_back(rt: HostRuntime) -> Result<(), Fail> {
    let heap = rt.alloc();
    assert!(rt;
        matches!(
            read_orders(heap, b"2000:01 05\n2000:01 0\n")?.into_orders(),
            Err(_)
        )
    );
    let orders = read_orders(heap, b"2000:01 05\n# all good\n2000:01 06\n")?
        .into_orders()
        .map_err(|_| Fail::new("no line is bad"))?;
    assert_eq!(rt; orders.len(), 2);
    Ok(())
}
