// Texts whose doc attributes become doc comments.
use crate::tests::checks::check_answer;
use relayout::{RelayoutError, with_any_doc_comments, with_doc_comments};
use std::process::Abort;
use test_helpers::release;

/// Texts with attributes, each with the text with comments.
const COMMENTS: &[(&str, &str)] = &[
    ("#[doc = \" a\"]\nfn f() {}", "/// a\nfn f() {}"),
    ("# ![doc = \"/a\"]\n\n", "//!/a\n\n"),
    ("\t /* b */\n  #[doc = \"\"]\n", "\t /* b */\n  ///\n"),
    ("#[doc = \"\\t\\\"\\\\é'\"]\n", "///\t\"\\é'\n"),
    (
        "{\n    #[doc = \"a\"]\n    #[doc = \"b\"]\n}",
        "{\n    ///a\n    ///b\n}",
    ),
];

/// Texts that stay as they are: the attribute is spelled in another way, other text is on its line, or no comment of
/// one line can hold its text.
const KEPT: &[&str] = &[
    "",
    "/// a\n",
    "#[doc=\" a\"]\n",
    "#[doc = r\" a\"]\n",
    "#[doc = \"\\u{e9}\"]\n",
    "#![doc = \" a\"]\n",
    "x #[doc = \" a\"]\n",
    "/* x */ #[doc = \" a\"]\n",
    "#[doc = \" a\"] x\n",
    "#[doc = \" a\"]",
    "#[doc = \"/a\"]\n",
    "#[doc = \"a\\n\"]\n",
    "# ![doc = \"a\\r\"]\n",
    "\"\n#[doc = a]\n\" (]",
];

/// Texts with attributes that only `with_any_doc_comments` changes, each with the text with comments: literals in
/// another spelling, and texts of several lines.
const ANY: &[(&str, &str)] = &[
    ("#[doc = r\" a\"]\n", "/// a\n"),
    ("# ![doc = r##\" \"a\"# \"##]\n", "//! \"a\"# \n"),
    ("#[doc = \"\\u{e9}\\x41\"]\n", "///\u{e9}A\n"),
    (" #[doc = \" a\\n b\"]\nx", " /** a\n b*/\nx"),
    ("# ![doc = r\"/a\n\"]\n", "/*!/a\n*/\n"),
    ("#[doc = \" /* a\\n */\"]\n", "/** /* a\n */*/\n"),
];

/// Attributes that also `with_any_doc_comments` leaves: no comment is read as their text, or it is no text.
const KEPT_OF_ANY: &[&str] = &[
    "#[doc=r\" a\"]\n",
    "x #[doc = r\" a\"]\n",
    "#[doc = r\" a\"]",
    "#[doc = r\"/a\"]\n",
    "#[doc = r\"/\n\"]\n",
    "#[doc = r\"*\n\"]\n",
    "#[doc = \"a */\\n\"]\n",
    "#[doc = \"a /*\\n\"]\n",
    "# ![doc = \"\\n/\"]\n",
    "#[doc = \"a\\r\\n\"]\n",
    "#[doc = b\"a\"]\n",
    "#[doc = \"a\r\nb\"]\n",
];

/// Asserts what the text is with comments.
fn check(rt: &(impl Abort + AllocGlobal), text: &str, want: &str) {
    let out = with_doc_comments(rt.alloc(), text).expect(rt, text);
    check_answer(rt, text, &out.as_str(), &want);
}

/// Asserts what the text is with comments for attributes of any spelling.
fn check_any(rt: &(impl Abort + AllocGlobal), text: &str, want: &str) {
    let out = with_any_doc_comments(rt.alloc(), text).expect(rt, text);
    check_answer(rt, text, &out.as_str(), &want);
}

#[test]
fn attributes_become_comments(rt: HostRuntime) {
    for &(text, want) in COMMENTS {
        check(&rt, text, want);
    }
}

#[test]
fn other_text_stays(rt: HostRuntime) {
    for &text in KEPT {
        check(&rt, text, text);
    }
}

#[test]
fn attributes_of_any_spelling_become_comments(rt: HostRuntime) {
    for &(text, want) in ANY {
        check(&rt, text, text);
        check_any(&rt, text, want);
    }
    for &(text, want) in COMMENTS {
        check_any(&rt, text, want);
    }
    for &text in KEPT_OF_ANY {
        check_any(&rt, text, text);
    }
}

/// Asserts that the answer for the text is that no pieces cover it.
fn has_no_pieces(rt: &impl Abort, text: &str, out: Result<String, RelayoutError>) {
    let is_error = matches!(&out, Err(RelayoutError::NoPiece));
    release(out);
    check_answer(rt, text, &is_error, &true);
}

#[test]
fn a_text_that_no_pieces_cover_is_reported(rt: HostRuntime) {
    let text = "#[doc = \" a\"]\n\"";
    has_no_pieces(&rt, text, with_doc_comments(rt.alloc(), text));
    let text = "#[doc = r\" a\"]\n\"";
    has_no_pieces(&rt, text, with_any_doc_comments(rt.alloc(), text));
}
