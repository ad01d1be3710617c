//! Operations applied to a session, as they are carried out on its text by themselves.

use crate::scanned::adds_within;
use std::alloc::Global;
use yq_splice::Session;

/// Texts, updates, and what the texts come to be.
static EDITS: [(&str, &str, &str); 28] = [
    (
        "name: web # main\nport: 8080\n",
        ".port = 9090",
        "name: web # main\nport: 9090\n",
    ),
    (
        "name: web # main\nport: 8080\n",
        ".name = \"true\"",
        "name: \"true\" # main\nport: 8080\n",
    ),
    ("", ".a.b = 1", "a:\n  b: 1\n"),
    (
        "k:\n- a\n# about m\nm: 1\n",
        ".k += [\"b\"]",
        "k:\n- a\n- b\n# about m\nm: 1\n",
    ),
    (
        "a: |+\n  text\n# head\nb: 1\n\nc: 2\n",
        "del(.b)",
        "a: |+\n  text\nc: 2\n",
    ),
    (
        "a: |\n  text\nb: 1\n    # deep\nc: 2\n",
        "del(.b)",
        "a: |\n  text\n# deep\nc: 2\n",
    ),
    (
        "- a: 1\n  # about b\n  b: 2\n",
        "del(.[0].a)",
        "-\n  # about b\n  b: 2\n",
    ),
    ("- a: 1\n  b: 2\n", "del(.[0].a)", "- b: 2\n"),
    (
        "x: # note\n  a: 1\ny: 2\n",
        "del(.x.a)",
        "x: {} # note\ny: 2\n",
    ),
    ("x: 5 # n", ".x = {\"b\": 1}", "x: # n\n  b: 1"),
    ("p: [\n  a, # one\n  b\n]\n", "del(.p[1])", "p: [\n  a\n]\n"),
    ("p: [\n  a, # one\n  b\n]\n", "del(.p[0])", "p: [\n  b\n]\n"),
    ("a: &x 1\nb: *x\n", ".a = 2", "a: &x 2\nb: *x\n"),
    ("a: &x 1\nb: *x\n", ".b = 3", "a: &x 1\nb: 3\n"),
    ("n: 0x0F\n", ".n += 1", "n: 16\n"),
    (
        "run: |\n    echo a\n",
        ".run = \"echo b\\n\"",
        "run: |\n    echo b\n",
    ),
    (
        "run: |\n    echo b\n",
        ".run = \"x\\n\\n\"",
        "run: \"x\\n\\n\"\n",
    ),
    ("a: [1]\nb: {}\n", ".b = .a[]", "a: [1]\nb: 1\n"),
    ("a: [1]\nb: {}\n", ".b.c = 1", "a: [1]\nb: {c: 1}\n"),
    ("a: [1]\nb: {}\n", ".a += [2]", "a: [1, 2]\nb: {}\n"),
    ("a: [1]\nb: {}\n", ".a += 2", "a: [1, 2]\nb: {}\n"),
    (
        "list:\n  - 5 # c\n",
        ".list[0] = {\"k\": [1]}",
        "list:\n  - # c\n    k:\n      - 1\n",
    ),
    (
        "list:\n  - 5\n",
        ".list[0] = {\"k\": [1]}",
        "list:\n  - k:\n      - 1\n",
    ),
    (
        "# lic\n\n# about a\na: 1\nb: 2\n",
        "del(.a)",
        "# lic\n\nb: 2\n",
    ),
    ("a: 1\nb: 2\n", "del(.[])", "{}\n"),
    ("a: 1\nb: 2", "del(.b)", "a: 1\n"),
    ("a: 1\nb: 2", ".c = 3", "a: 1\nb: 2\nc: 3"),
    ("# hi", ".a = 1", "# hi\na: 1"),
];

/// Whether the text of a session is this one.
fn has_text(session: &Session, text: &str) -> bool {
    let halves = session.text();
    text.strip_prefix(halves.front) == Some(halves.back)
}

/// Whether a session comes to have a text by the operations of an update, each planned anew on what the one
/// before left, and counts no more than five lines of each, as many as the largest text here has.
fn comes_to(alloc: Global, session: &mut Session, expr: &str, text: &str) -> bool {
    'operations: for _ in 0..3u32 {
        if has_text(session, text) {
            return true;
        }
        if !adds_within(alloc, session, expr, 5) {
            return false;
        }
    }
    has_text(session, text)
}

/// Whether that is so of a text.
fn is_edited(alloc: Global, old: &str, expr: &str, new: &str) -> bool {
    match Session::open(alloc, old) {
        Ok(mut session) => comes_to(alloc, &mut session, expr, new),
        Err(_) => false,
    }
}

#[test]
fn edits_of_a_session(rt: HostRuntime) {
    'edits: for (old, expr, new) in &EDITS {
        assert!(rt; is_edited(rt.alloc(), *old, *expr, *new), "{expr}");
    }
}
