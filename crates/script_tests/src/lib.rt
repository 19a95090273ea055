//! Lines that a script may hold, good and bad, and what is read of them.
#![tactic(auto)]

#[cfg(test)]
mod tests {
    use script::{Command, Fact};
    use table::Arguments;

    const GOOD: [&str; 40] = [
        "table",
        "  table  ",
        "pred 63 args=255 given=255",
        "pred 0 args=00 given=007",
        "node true",
        "node  false",
        "node atom 255",
        "node atom 3 v255 4294967295 v0 7",
        "node and 0 255",
        "node or 1 0",
        "node exists - 0",
        "node exists v0,v7,v0 0",
        "node forall v3 0 1",
        "node prev 0 none 0",
        "node once 4294967295 4294967295 0",
        "node hist 5 3 0",
        "node next 0 0 0",
        "node event 0 9 0",
        "node always 0 9 0",
        "node since 0 none 0 1",
        "node until 0 9 0 1",
        "check",
        "journal records 18446744073709551615",
        "journal packed 0",
        "keeper rows",
        "keeper none",
        "open",
        "open joined",
        "open session",
        "open joined session",
        "buffer 1000",
        "draft 4294967295",
        "add p255(1,2,3,4,5)",
        "commit",
        "commit 5",
        "commit 5 p3(5,7) p3()",
        "late 18446744073709551615 p0(0)",
        "find 3 p1(5,_,7)",
        "find 3 p1() after 1,2,3,4",
        "rehearse packed 10",
    ];

    const BAD: [&str; 60] = [
        "",
        "   ",
        "\ttable",
        "tables",
        "Table",
        "table 1",
        "pred 64 args=1 given=0",
        "pred 1 args=256 given=0",
        "pred 1 args=1 given=256",
        "pred 1 args= given=0",
        "pred 1 given=0 args=1",
        "pred 1 args=1",
        "pred +1 args=1 given=0",
        "pred 1 args=1 given=0 0",
        "node",
        "node true 0",
        "node atom",
        "node atom 256",
        "node atom 1 v256",
        "node atom 1 v",
        "node atom 1 4294967296",
        "node atom 1 x",
        "node and 0",
        "node and 0 256",
        "node and 0 1 2",
        "node exists v8 0",
        "node exists v0, 0",
        "node exists v0v1 0",
        "node exists --1 0",
        "node forall v0 1",
        "node prev none 3 0",
        "node once 0 4294967296 0",
        "node hist 0 0",
        "node since 0 none 1",
        "node until 0 none 1 2 3",
        "check check",
        "journal 5",
        "journal records",
        "journal records 18446744073709551616",
        "keeper",
        "keeper row",
        "open session joined",
        "open joined joined",
        "buffer 1001",
        "buffer -1",
        "draft 4294967296",
        "add p256(1)",
        "add p1(",
        "add p1(1",
        "add p1(1,)",
        "add p1(1))",
        "add p1(_)",
        "add p1(4294967296)",
        "add p1(1) p1(2)",
        "commit p1(2)",
        "commit 5 p1(2) p1",
        "late 5",
        "find 3 p1(5) after",
        "find 3 p1(5) before 1",
        "find 3 p1(5,_,) after 1",
    ];

    #[test]
    fn good_lines_are_read(rt: HostRuntime) {
        for line in GOOD {
            assert!(rt; script::read(line.as_bytes()).is_some(), "{}", line);
        }
    }

    #[test]
    fn bad_lines_are_not_read(rt: HostRuntime) {
        for line in BAD {
            assert!(rt; script::read(line.as_bytes()).is_none(), "{}", line);
        }
    }

    #[test]
    fn a_fact_keeps_its_count_and_first_three_values(rt: HostRuntime) {
        let values = Arguments {
            count: 4,
            first: [1, 2, 3],
        };
        let fact = Fact {
            predicate: 7,
            values,
        };
        assert_eq!(rt; script::read(b"add p7(1,2,3,4)"), Some(Command::Add(fact)));
    }

    #[test]
    fn facts_of_a_line_are_numbered_from_0(rt: HostRuntime) {
        let values = Arguments {
            count: 1,
            first: [8, 0, 0],
        };
        let fact = Fact {
            predicate: 4,
            values,
        };
        assert_eq!(rt; script::fact_at(b"commit 5 p3(5,7) p4(8)", 1), Some(fact));
        assert!(rt; script::fact_at(b"commit 5 p3(5,7) p4(8)", 2).is_none());
    }

    #[test]
    fn comments_and_empty_lines_are_passed_over(rt: HostRuntime) {
        assert!(rt; script::is_passed_over(b""));
        assert!(rt; script::is_passed_over(b"# table"));
        assert!(rt; !script::is_passed_over(b" # table"));
        assert!(rt; !script::is_passed_over(b"table"));
    }
}
