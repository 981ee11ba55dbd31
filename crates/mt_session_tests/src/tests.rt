mod items;
mod sessionview;
