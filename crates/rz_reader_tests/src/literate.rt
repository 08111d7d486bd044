use rz_literate::{TextFault, code_of};
use std::test::Fail;

// What stands in a Markdown file, and what is read of it.
const FILES: [(&str, &str); 46] = [
    // No fence.
    ("", ""),
    ("prose\n", "     \n"),
    ("prose, no line feed", "                   "),
    ("caf\u{e9} \u{2192} \u{1d538}\n", "              \n"),
    ("a\rb\r\nc", " \r \r\n "),
    ("  \t\n", "   \n"),
    // Fences of both kinds.
    ("```rzk\nU\n```\nx\n", "      \nU\n   \n \n"),
    ("~~~rzk\nU\n~~~\nx\n", "      \nU\n   \n \n"),
    ("~~~~rzk\nU\n~~~\nV\n~~~~\nx", "       \nU\n~~~\nV\n    \n "),
    (
        "````rzk\n```\nU\n```\n````\nx",
        "       \n```\nU\n```\n    \n ",
    ),
    ("```rzk\nU\n`````\nx", "      \nU\n     \n "),
    ("```rzk\n~~~\nU\n```\nx", "      \n~~~\nU\n   \n "),
    ("~~~rzk\n```\nU\n~~~\nx", "      \n```\nU\n   \n "),
    ("``rzk\nU\n``\n", "     \n \n  \n"),
    (
        "```rzk\n```\nx\n```rzk\nU\n```",
        "      \n   \n \n      \nU\n   ",
    ),
    // A fence that is never closed.
    ("```rzk\nU\n\nV", "      \nU\n\nV"),
    ("```\nx\n", "   \n \n"),
    ("```rzk", "      "),
    // Indentation.
    ("   ```rzk\nU\n   ```\nx", "         \nU\n      \n "),
    ("    ```rzk\nx\n", "          \n \n"),
    ("\t```rzk\nx\n", "       \n \n"),
    ("```rzk\n    ```\nU\n```\nx", "      \n    ```\nU\n   \n "),
    ("```rzk\n\t```\nU\n```\nx", "      \n\t```\nU\n   \n "),
    ("> ```rzk\n> x\n", "        \n   \n"),
    // What stands after a closing fence.
    ("```rzk\nU\n``` \t \nx", "      \nU\n      \n "),
    ("```rzk\nU\n``` y\nV\n```\nx", "      \nU\n``` y\nV\n   \n "),
    ("```rzk\n```rzk\nU\n```\nx", "      \n```rzk\nU\n   \n "),
    // Carriage returns.
    ("```rzk\r\nU\r\n```\r\nx\r\n", "      \r\nU\r\n   \r\n \r\n"),
    ("```rzk\nU\n```\r", "      \nU\n```\r"),
    ("```rzk\nU\n```\r\r\nV", "      \nU\n```\r\r\nV"),
    ("```rzk\r\r\nx\n", "      \r\r\n \n"),
    // Info strings.
    ("```   rzk x\nU\n```", "           \nU\n   "),
    ("``` rzk \nU\n```", "        \nU\n   "),
    ("```rzkx\nx\n```", "       \n \n   "),
    ("```rzk\tx\nx\n```", "        \n \n   "),
    ("```\trzk\nx\n```", "       \n \n   "),
    ("```RZK\nx\n```", "      \n \n   "),
    ("``` {.rzk}\nU\n```", "          \nU\n   "),
    ("``` {.rzk x}\nU\n```", "            \nU\n   "),
    ("``` {.rzkx}\nx\n```", "           \n \n   "),
    ("``` {.rzk\nx\n```", "         \n \n   "),
    ("```rzk `x`\nx\n```rzk\nU\n", "          \n \n      \nU\n"),
    ("~~~rzk `x`\nU\n~~~", "          \nU\n   "),
    // A fence inside another.
    ("```\n~~~rzk\nx\n~~~\n```\ny", "   \n      \n \n   \n   \n "),
    (
        "~~~~\n```rzk\nx\n```\n~~~~\n```rzk\nU",
        "    \n      \n \n   \n    \n      \nU",
    ),
    (
        "```rzk\n\u{3a3} \u{2192}\n```\n\u{3a3}",
        "      \n\u{3a3} \u{2192}\n   \n  ",
    ),
];

#[test]
fn reads_code_lines(rt: HostRuntime) -> Result<(), Fail> {
    for (file, code) in FILES {
        let read = code_of(rt.alloc(), "a.md", file.as_bytes())?;
        assert_eq!(rt; read.as_str(), code, "of {file:?}");
    }
    Ok(())
}

#[test]
fn reads_by_name(rt: HostRuntime) -> Result<(), Fail> {
    let names = [
        (".md", true),
        ("b.rzk.md", true),
        ("a.MD", false),
        ("a.rzk", false),
        ("md", false),
        ("a.md ", false),
        ("", false),
    ];
    for (name, blank) in names {
        let read = code_of(rt.alloc(), name, b"prose")?;
        assert_eq!(rt;
            read.as_str(),
            if blank { "     " } else { "prose" },
            "of {name:?}"
        );
    }
    Ok(())
}

#[test]
fn refuses_what_is_no_text(rt: HostRuntime) {
    let bytes = [
        (b"\x61\xff".as_slice(), 1),
        (b"\x80", 0),
        (b"```rzk\nU\n```\nprose \xe2\x86", 19),
        (b"\xe2\x86\x92\xed\xa0\x80", 3),
    ];
    for (bytes, place) in bytes {
        assert_eq!(rt;
            code_of(rt.alloc(), "x.rzk", bytes).err(),
            Some(TextFault::NotText(place))
        );
        assert_eq!(rt;
            code_of(rt.alloc(), "x.md", bytes).err(),
            Some(TextFault::NotText(place))
        );
    }
}
