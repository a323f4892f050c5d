// The papers' examples, proved by computation from raw bytes. They stand apart from `scope`, on which they rest, so that an
// edit of the scope need not compute them again. There is no code.
#![tactic(auto)]
