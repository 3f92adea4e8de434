//! What a caller may rely on: of the printed text, the script and the stores on the disks alone.
#![tactic(auto)]
