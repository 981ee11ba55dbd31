mod cuewrite;
mod growth;
mod interchange;
mod render;
mod script;
