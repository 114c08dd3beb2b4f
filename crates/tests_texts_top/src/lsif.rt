// The entries of an index. Their texts have the form of the standard's examples, as a whole dump of
// them has.
mod dump;
mod edge;
mod entry;
mod symbols;
mod tags;
mod vertex;
