//! What passes the cluster's edges, as definitions: what a request to a worker does and is answered, and what a sink's
//! task hands out into which file.
//!
//! There is no code here: what is decided, answered and written over a cluster in memory or a world is proved against
//! these definitions, and so is what a script's run says of requests and of steps.
//! It stands on the cluster's model, on the calls of the REST API, and on the files of outlets.
#![tactic(auto)]
