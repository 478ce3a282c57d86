// Document 01 as definitions that compute: they stand in specs/, in the document's order.
#![tactic(auto)]
