// Laws of scans that fall back toward the start: what a byte, a payload and a scan cost in order 3. There is no code here.
#![tactic(auto)]
