// Document 02, §12: what is promised of mending a capture. There is no code here; that of mending is in crate capture.
#![tactic(auto)]
