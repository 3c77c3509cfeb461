//! Examples of the datatype libraries, run as tests. They stand in a crate of their own, since a crate is proved once more
//! for its tests.
#![tactic(auto)]

#[cfg(test)]
mod tests {
    use builtin::BuiltIn;
    use datatypes::{Comparison, DatatypeLibrary, TypeName, XML_SCHEMA_DATATYPES, compare};
    use decimals::{Decimal, Decimals};
    use std::process::Abort;
    use std::test::Fail;
    use switches::Switches;

    const STRING: TypeName<'static> = TypeName {
        uri: b"",
        name: b"string",
    };

    const TOKEN: TypeName<'static> = TypeName {
        uri: b"",
        name: b"token",
    };

    const DECIMAL: TypeName<'static> = TypeName {
        uri: XML_SCHEMA_DATATYPES,
        name: b"decimal",
    };

    const SWITCH: TypeName<'static> = TypeName {
        uri: b"urn:example:switches",
        name: b"switch",
    };

    // The numbers of the types in their libraries, which the questions take.
    const STRING_NUMBER: u32 = 1;

    const TOKEN_NUMBER: u32 = 2;

    const DECIMAL_NUMBER: u32 = 1;

    type Pair = (&'static [u8], &'static [u8]);

    // Every pair gets the answer.
    fn check_pairs<L: DatatypeLibrary>(
        rt: &impl Abort,
        library: &L,
        type_name: TypeName<'_>,
        pairs: &[Pair],
        answer: Comparison,
    ) {
        for (left, right) in pairs {
            assert_eq!(rt; compare(library, type_name, left, right), Some(answer));
        }
    }

    const DIFFERENT: Comparison = Comparison::Different {
        left_allowed: true,
        right_allowed: true,
    };

    const LEFT_NOT_ALLOWED: Comparison = Comparison::Different {
        left_allowed: false,
        right_allowed: true,
    };

    const SAME_TOKENS: &[Pair] = &[
        (b" a", b"a"),
        (b"\ta\nb\rc d", b"a b c d"),
        (b"a \t\n\r b", b"a b"),
        (b"a\r\n", b"\n\ta"),
        (b" \t\n\r", b""),
        (b" \x00 \xff ", b"\x00 \xff"),
    ];

    const DIFFERENT_TOKENS: &[Pair] = &[
        (b"a b", b"ab"),
        (b"a\x0bb", b"a b"),
        (b"a", b"a b"),
        (b"a b", b"a"),
        (b"a b", b"a c"),
    ];

    #[test]
    fn strings_and_tokens(rt: HostRuntime) {
        check_pairs(&rt, &BuiltIn, TOKEN, SAME_TOKENS, Comparison::Same);
        check_pairs(&rt, &BuiltIn, STRING, SAME_TOKENS, DIFFERENT);
        check_pairs(&rt, &BuiltIn, TOKEN, DIFFERENT_TOKENS, DIFFERENT);
    }

    const EQUAL_DECIMALS: &[Pair] = &[
        (b" 07.0 ", b"7"),
        (b"-0", b"0"),
        (b"+.5", b"0.50"),
        (b"5.", b"+5"),
        (b"\t\n\r 5 \t\n\r", b"5"),
        (b"123456789012345678", b"123456789012345678."),
        (b".123456789012345670", b"0.12345678901234567"),
        (b"000000000000000007", b"7.00"),
        (b"-0.00000000000000000", b"0"),
    ];

    const UNEQUAL_DECIMALS: &[Pair] = &[
        (b"1.5", b"-1.5"),
        (b"1.05", b"1.5"),
        (b"10", b"1"),
        (b"999999999999999999", b"99999999999999999.9"),
    ];

    const NO_DECIMALS: &[Pair] = &[
        (b".", b"1"),
        (b"+", b"1"),
        (b"", b"1"),
        (b"1e3", b"1000"),
        (b"1 2", b"12"),
        (b"--1", b"1"),
        (b"1.2.3", b"1.23"),
        (b"- 1", b"-1"),
        (b"\x001", b"1"),
        (b"1\xff", b"1"),
        (b"1\x0b", b"1"),
        (b"1000000000000000000", b"1"),
        (b"1234567890123456789", b"1"),
        (b".1234567890123456789", b"1"),
        (b"123456789.0123456789", b"1"),
        (b"0000000000000000007", b"7"),
        (b"0.000000000000000000", b"0"),
    ];

    #[test]
    fn decimals(rt: HostRuntime) {
        check_pairs(&rt, &Decimals, DECIMAL, EQUAL_DECIMALS, Comparison::Same);
        check_pairs(&rt, &Decimals, DECIMAL, UNEQUAL_DECIMALS, DIFFERENT);
        check_pairs(&rt, &Decimals, DECIMAL, NO_DECIMALS, LEFT_NOT_ALLOWED);
    }

    #[test]
    fn normal_form(rt: HostRuntime) {
        assert_eq!(rt;
            Decimal::parse(b"-001.250"),
            Some(Decimal {
                negative: true,
                magnitude: 125,
                fraction: 2,
            })
        );
    }

    const SAME_SWITCHES: &[Pair] = &[(b" Y", b"1\n"), (b"0", b"N")];

    const NO_SWITCHES: &[Pair] = &[(b"yes", b"Y"), (b"", b"0")];

    #[test]
    fn another_library(rt: HostRuntime) {
        check_pairs(&rt, &Switches, SWITCH, SAME_SWITCHES, Comparison::Same);
        check_pairs(&rt, &Switches, SWITCH, NO_SWITCHES, LEFT_NOT_ALLOWED);
        assert_eq!(rt;
            compare(&Switches, TypeName { uri: b"", ..SWITCH }, b"Y", b"Y"),
            None
        );
    }

    #[test]
    fn long_strings(rt: HostRuntime) -> Result<(), Fail> {
        let mut blanks = vec![in rt.alloc(); b' '; 1 << 20]?;
        assert!(rt; !Decimals.allows(DECIMAL_NUMBER, blanks.as_slice()));
        blanks.push(b'7')?;
        assert!(rt; BuiltIn.same(TOKEN_NUMBER, blanks.as_slice(), b"7"));
        assert!(rt; Decimals.same(DECIMAL_NUMBER, blanks.as_slice(), b"7"));
        let digits = vec![in rt.alloc(); b'1'; 1 << 20]?;
        assert!(rt; !Decimals.allows(DECIMAL_NUMBER, digits.as_slice()));
        Ok(())
    }

    // No string is allowed and no two are same.
    fn is_no_type<L: DatatypeLibrary>(library: &L, datatype: u32) -> bool {
        !library.allows(datatype, b"1")
            && !library.same(datatype, b"1", b"1")
            && !library.allows_any(datatype)
    }

    #[test]
    fn numbers_that_are_no_type(rt: HostRuntime) {
        for datatype in [0, 3, u32::MAX] {
            assert!(rt; is_no_type(&BuiltIn, datatype));
            assert!(rt; is_no_type(&Decimals, datatype));
        }
        assert!(rt; is_no_type(&Decimals, 2));
        assert!(rt;
            BuiltIn.allows_any(STRING_NUMBER)
                && BuiltIn.allows_any(TOKEN_NUMBER)
                && Decimals.allows_any(DECIMAL_NUMBER)
        );
    }

    // A name, and its number in the built-in library and in that of decimals.
    struct Name {
        type_name: TypeName<'static>,
        built_in: Option<u32>,
        decimal: Option<u32>,
    }

    const NAMES: &[Name] = &[
        Name {
            type_name: STRING,
            built_in: Some(STRING_NUMBER),
            decimal: None,
        },
        Name {
            type_name: TOKEN,
            built_in: Some(TOKEN_NUMBER),
            decimal: None,
        },
        Name {
            type_name: TypeName {
                uri: b"",
                name: b"decimal",
            },
            built_in: None,
            decimal: None,
        },
        Name {
            type_name: DECIMAL,
            built_in: None,
            decimal: Some(DECIMAL_NUMBER),
        },
        Name {
            type_name: TypeName {
                uri: XML_SCHEMA_DATATYPES,
                name: b"string",
            },
            built_in: None,
            decimal: None,
        },
        Name {
            type_name: TypeName {
                uri: XML_SCHEMA_DATATYPES,
                name: b"Decimal",
            },
            built_in: None,
            decimal: None,
        },
    ];

    #[test]
    fn names(rt: HostRuntime) {
        for name in NAMES {
            assert_eq!(rt; BuiltIn.find(name.type_name), name.built_in);
            assert_eq!(rt; Decimals.find(name.type_name), name.decimal);
        }
    }
}
