// Statements of damaged inputs and of rows at their edges.
#![tactic(auto)]

#[cfg(test)]
mod tests {
    use statements::report::report;
    use std::test::Fail;

    #[test]
    fn malformed_lines(rt: HostRuntime) -> Result<(), Fail> {
        let text =
            b"(row 01 1 1 1)\n(row 1 1 1 1)\n(rox 1 1 1 1)\n\n(row 12345678901234 1 1 1)\n(row 1 1 1 1) \n(row 1 1 1 1)";
        let out = report(rt.alloc(), text)?;
        assert_eq!(rt;
            out.as_str(),
            "(refused 1 1 7)\n(refused 3 1 4)\n(refused 4 1 1)\n(refused 5 1 19)\n(refused 6 1 14)\n(refused 7 1 14)\n"
        );
        Ok(())
    }

    #[test]
    fn rows_that_break_the_rules(rt: HostRuntime) -> Result<(), Fail> {
        let out = report(rt.alloc(), b"(row 1 1 1000000000000 1)\n")?;
        assert_eq!(rt; out.as_str(), "(refused 5)\n");
        let out = report(rt.alloc(), b"(row 2 1 1 0)\n(row 1 1 1 0)\n")?;
        assert_eq!(rt; out.as_str(), "(refused 5)\n");
        Ok(())
    }

    #[test]
    fn no_rows(rt: HostRuntime) -> Result<(), Fail> {
        let out = report(rt.alloc(), b"")?;
        assert_eq!(rt; out.as_str(), "");
        Ok(())
    }
}
