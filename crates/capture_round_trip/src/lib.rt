// Captures, read and written: that a file is the file of its handshakes and no other, and both round trips. The theorems are in specs/.
#![tactic(auto)]
