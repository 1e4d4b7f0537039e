//! Unified diffs of texts.
use isle_layout::changes::changes;
use std::alloc::Global;
use std::test::Fail;

/// Two texts, and what changes from the one to the other in the file `n`: a double arrow stands between the texts.
pub const CHANGES: &str = "
| a\nb\nc\n ⇒ a\nx\nc\n → --- n\n+++ n\n@@ -1,3 +1,3 @@\n a\n-b\n+x\n c
| 1\n2\n3\n4\n\n5\n6\n7\n8\n ⇒ 1\n2\n3\n4\n5\n6\n7\n8\n → --- n\n+++ n\n@@ -2,7 +2,6 @@\n 2\n 3\n 4\n-\n 5\n 6\n 7
| (a (b))\n(c)\n ⇒ (a\n    (b))\n(c)\n → --- n\n+++ n\n@@ -1,2 +1,3 @@\n-(a (b))\n+(a\n+    (b))\n (c)
| a\n  b\nc\n ⇒ a b c\n → --- n\n+++ n\n@@ -1,3 +1 @@\n-a\n-  b\n-c\n+a b c
| a  b\n\n\nc\n ⇒ a b\n\nc\n → --- n\n+++ n\n@@ -1,4 +1,3 @@\n-a  b\n+a b\n \n-\n c
| a  b\n\nc\n ⇒ a b\n\n\nc\n → --- n\n+++ n\n@@ -1,3 +1,4 @@\n-a  b\n+a b\n \n+\n c
| a\nb\n\nc\n ⇒ a b\n\nc\n → --- n\n+++ n\n@@ -1,4 +1,3 @@\n-a\n-b\n+a b\n \n c
| a b\n\nc\n ⇒ a\nb\n\nc\n → --- n\n+++ n\n@@ -1,3 +1,4 @@\n-a b\n+a\n+b\n \n c
| a\nb ⇒ a\nb\n → --- n\n+++ n\n@@ -1,2 +1,2 @@\n a\n-b\n\\ No newline at end of file\n+b
| a\nb\n ⇒ a\nb → --- n\n+++ n\n@@ -1,2 +1,2 @@\n a\n-b\n+b\n\\ No newline at end of file
| \na ⇒ a → --- n\n+++ n\n@@ -1,2 +1 @@\n-\n a\n\\ No newline at end of file
|  ⇒ a\n\n → --- n\n+++ n\n@@ -0,0 +1,2 @@\n+a\n+
| a\n\n ⇒  → --- n\n+++ n\n@@ -1,2 +0,0 @@\n-a\n-
| \n1\n2\n3\n4\n5\n6\n7\n\n ⇒ 1\n2\n3\n4\n5\n6\n7\n → --- n\n+++ n\n@@ -1,4 +1,3 @@\n-\n 1\n 2\n 3\n@@ -6,4 +5,3 @@\n 5\n 6\n 7\n-
| \n1\n2\n3\n4\n5\n6\n\n ⇒ 1\n2\n3\n4\n5\n6\n → --- n\n+++ n\n@@ -1,8 +1,6 @@\n-\n 1\n 2\n 3\n 4\n 5\n 6\n-";

/// What changes between two texts, with a double arrow between them.
pub fn changed(alloc: Global, row: &str) -> Result<String, Fail> {
    let (old, new) = row.split_once(" ⇒ ").ok_or("a double arrow")?;
    Ok(changes(alloc, "n", old, new)?)
}
