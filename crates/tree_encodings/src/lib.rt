// Trees that were built, as encodings: that what `ternarytree` leaves is what `majorana` accepts, in proofs/. There is no code here.

#![tactic(auto)]
